//! A town under work.
ghost use Rattle.std.specs.Prelude.{◌≡◌};

use crate::draws::Draws;
use crate::town::Town;
use transyt_net::Draft;

/// A town under work: the town that is asked for, the draws of its seed, and its network so far.
pub(crate) struct Works {
    /// The town that is asked for.
    pub(crate) town: Town,
    /// The draws of its seed.
    pub(crate) draws: Draws,
    /// Its network so far.
    pub(crate) draft: Draft,
}

impl Drop for Works {
    fn drop(self) {
        let Works {
            town: _,
            draws: _,
            draft: _,
        } = self;
    }
}

impl Works {
    /// The network that was made.
    pub(crate) fn into_draft(self) -> Draft
        ensures { result ≡ self.draft }
    {
        let Works {
            town: _,
            draws: _,
            draft,
        } = self;
        draft
    }
}
