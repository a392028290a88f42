//! Which of the two versions of each row is the row now, and which is that of the mark.

ghost use Rattle.std.specs.Prelude.{◌≡◌, ◌^◌, ◌<◌, Bool, false, not, length, replicate, slice_set, IfOk};
ghost use Rattle.transyt_kept.specs.Versions.{slot, bit, both};

use std::alloc::{AllocError, Global};
use std::marker::Model;

/// Where each row stands among the versions of all rows: the two of one row stand one after the other.
#[derive(Drop)]
pub(crate) struct Slots {
    // for each row whether its second version is the row now
    current: Vec<bool>,
    // and whether its second version is the row of the mark
    of_mark: Vec<bool>,
}

impl Model for Slots {
    ghost use Rattle.std.specs.Prelude.{Bool};
    ghost use Rattle.transyt_kept.specs.Versions.{VersionsValue, AreSlots};

    ghost Value = { VersionsValue Bool };

    ghost view = { λ s. record { now = s.current.items; mark = s.of_mark.items } };

    ghost invariant = { λ s. AreSlots (record { now = s.current.items; mark = s.of_mark.items }) };
}

impl Slots {
    /// Of each row the first version is the row now, and that of the mark.
    pub(crate) fn open(alloc: Global, count: u32) -> Result<Slots, AllocError>
        ensures { IfOk result (λ slots. slots ≡ both (replicate count false)) }
    {
        let current = vec![in alloc; false; count as usize]?;
        let of_mark = vec![in alloc; false; count as usize]?;
        Ok(Slots { current, of_mark })
    }

    /// Where a row stands now.
    #[tactic(auto, using(crate::proofs::VersionLaws::slot_byte))]
    pub(crate) fn current(&self, place: usize) -> usize
        requires { place < length self.now.now }
        ensures { result ≡ slot place (bit self.now.now place) }
    {
        let second = self.current[place];
        2 * place + second as usize
    }

    /// Where a row stands that may be written, since it isn't that of the mark: it is the row now from here on.
    #[tactic(auto, using(crate::proofs::VersionLaws::slot_byte))]
    pub(crate) fn other(&mut self, place: usize) -> usize
        requires { place < length self.old.now }
        ensures slot { result ≡ slot place (not (bit self.old.mark place)) }
        ensures now { self.new ≡ record
            self.old { now = slice_set self.old.now place (not (bit self.old.mark place)) } }
    {
        let second = !self.of_mark[place];
        self.current[place] = second;
        2 * place + second as usize
    }

    /// The mark stands for the rows now.
    pub(crate) fn begin(&mut self)
        ensures { self.new ≡ record self.old { mark = self.old.now } }
    {
        self.of_mark.copy_from_slice(&self.current);
    }

    /// The rows become those of the mark.
    pub(crate) fn restore(&mut self)
        ensures { self.new ≡ record self.old { now = self.old.mark } }
    {
        self.current.copy_from_slice(&self.of_mark);
    }
}
