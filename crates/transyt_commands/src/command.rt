//! A command.
use transyt_net::Edit;

/// A command of a run, with the card numbers of the links, nodes and feeders that it names.
#[derive(Clone, Copy, PartialEq, Eq)]
pub enum Command {
    /// One number of the network, or the two weights of a link, is set: OFFSET, CHANGE, ENTRY, PART, CRUISE,
    /// SATURATION and WEIGHT.
    Edit(Edit),
    /// Opens a trial.
    Trial,
    /// Takes the open trial back.
    Back,
    /// Keeps the open trial.
    Keep,
    /// Any other command: it changes nothing when it is judged.
    Request(Request),
}

/// A command that asks for a climb, a certificate, a text or the end, with the card number of the link that it names.
#[derive(Clone, Copy, PartialEq, Eq)]
pub enum Request {
    /// Climbs by the deck's plan.
    Climb,
    /// Writes the index of each listed move.
    Cert,
    /// Writes the network's index.
    Index,
    /// Writes each link's figures and index.
    Links,
    /// Writes each link's figures in the units of an engineer, and those of the network.
    Figures,
    /// Writes each node's stages.
    Timing,
    /// Writes a link's IN, GO and OUT.
    Profile {
        /// The card number of the link.
        link: u32,
    },
    /// Draws a link's IN, GO and OUT.
    Plot {
        /// The card number of the link.
        link: u32,
    },
    /// Writes a link's queue.
    Queue {
        /// The card number of the link.
        link: u32,
    },
    /// Draws the cycle of all links, a character for each step.
    Chart,
    /// Writes the work so far.
    Work,
    /// Writes the deck text of the network as it stands.
    Deck,
    /// Ends the run.
    Stop,
}
