//! A table of figures, each in two versions.

ghost use Rattle.std.specs.Prelude.{◌≡◌, ◌<◌, length, replicate, slice_set, slice_index_or, IfOk};
ghost use Rattle.transyt_kept.specs.Cell.{no_figures};
ghost use Rattle.transyt_kept.specs.Versions.{both};

use crate::slots::Slots;
use std::alloc::{AllocError, Global};
use std::marker::Model;
use transyt_delay::Figures;

/// The figures of links: each now, and at the mark.
#[derive(Drop)]
pub(crate) struct FigureTable {
    slots: Slots,
    versions: Vec<Figures>,
}

impl Model for FigureTable {
    ghost use Rattle.transyt_delay.specs.declared.figures.Figures.{Figures};
    ghost use Rattle.transyt_kept.specs.Versions.{VersionsValue, versions_of, AreVersions};

    ghost Value = { VersionsValue Figures };

    ghost view = { λ t. versions_of t.slots t.versions.items };

    ghost invariant = { λ t. AreVersions t.slots t.versions.items };
}

impl FigureTable {
    /// The figures of `count` links, all 0, now and at the mark. All memory is taken here.
    pub(crate) fn empty(alloc: Global, count: u32) -> Result<FigureTable, AllocError>
        ensures { IfOk result (λ table. table ≡ both (replicate count no_figures)) }
    {
        let none = Figures {
            uniform: 0,
            random: 0,
            stops: 0,
            index: 0,
        };
        let versions = vec![in alloc; none; 2 * count as usize]?;
        let slots = Slots::open(alloc, count)?;
        Ok(FigureTable { slots, versions })
    }

    /// The figures of a link now.
    pub(crate) fn get(&self, link: usize) -> Figures
        requires { link < length self.now.now }
        ensures { result ≡ slice_index_or self.now.now link no_figures }
    {
        self.versions[self.slots.current(link)]
    }

    /// Puts the figures of a link in their place.
    pub(crate) fn put(&mut self, link: usize, figures: Figures)
        requires { link < length self.old.now }
        ensures { self.new ≡ record self.old { now = slice_set self.old.now link figures } }
    {
        let slot = self.slots.other(link);
        self.versions[slot] = figures;
    }

    /// The mark stands for the figures now.
    pub(crate) fn begin(&mut self)
        ensures { self.new ≡ record self.old { mark = self.old.now } }
    {
        self.slots.begin();
    }

    /// The figures become those of the mark.
    pub(crate) fn restore(&mut self)
        ensures { self.new ≡ record self.old { now = self.old.mark } }
    {
        self.slots.restore();
    }
}
