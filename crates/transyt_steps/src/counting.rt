//! For a caller that doesn't count.

ghost use Rattle.std.specs.Prelude.{◌≡◌, ◌<◌};

use crate::counter::Steps;
use std::marker::Brand;
use std::sync::ledger::{Blank, Ledger};

/// Work that counts its steps on a counter that it is handed, whatever ledger that is kept in.
pub trait Counting: Sized {
    /// The result of the work.
    type Answer;

    /// The condition on the value that the work is done with.
    ghost needs: { Self → Type 0 };

    /// The fact that relates that value and the answer.
    ghost gives: { Self → Self.Answer → Type 0 };

    /// Does the work, and counts its steps.
    fn count_on<L: Ledger>(self, steps: &mut Steps<L>) -> Self::Answer
        requires { needs self }
        ensures { gives self result };
}

/// Does work on a counter of its own, in the ledger of a blank.
fn on_blank<W: Counting, L: Ledger>(work: W, blank: Blank) -> W::Answer
    requires needs { W.needs work }
    requires name { blank.name ≡ L.name }
    requires parts { blank.parts ≡ L.parts }
    requires some { 0 < L.parts }
    ensures { W.gives work result }
{
    let mut steps = Steps::<L>::begin(blank);
    work.count_on(&mut steps)
}

/// Does work whose steps nobody counts, and gives its answer. No ledger and no condition of one is left for the caller.
pub fn uncounted<W: Counting>(work: W) -> W::Answer
    requires { W.needs work }
    ensures { W.gives work result }
{
    on_blank::<W, Brand>(work, Blank::new(1))
}
