//! The flow that a row counts.

ghost use Rattle.std.specs.Prelude.{◌≡◌};
ghost use Rattle.transyt_counts.specs.Rows.{edit_of};

use transyt_net::Edit;

/// The flow that a row counts: the entry flow of a link, or what it takes from a feeder.
#[derive(Clone, Copy, PartialEq, Eq, Hash)]
pub struct Key {
    pub link: u32,
    pub feeder: Option<u32>,
}

impl Key {
    /// The edit that sets this flow.
    pub fn edit(self, flow: u32) -> Edit
        ensures { result ≡ edit_of self flow }
    {
        match self.feeder {
            None => Edit::Entry {
                link: self.link,
                flow,
            },
            Some(feeder) => Edit::Part {
                link: self.link,
                feeder,
                flow,
            },
        }
    }
}
