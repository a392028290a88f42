//! A program of one's own over these crates: it reads a deck, tries a thousand offsets, and prints the lowest index.
//!
//! It is here to be copied: a deck becomes a network and a session (`Search`), and what each try tells is kept
//! (`try_offsets`). docs/ARCHITECTURE.md, "To use a crate from a program of your own", goes through it.
#![tactic(auto)]

ghost use Rattle.std.specs.Prelude.{◌≡◌, ◌≤◌, ⊤, IfOk, None};
ghost use Rattle.transyt_sweep.specs.Sweeps.{index};

use std::alloc::{AllocError, Global};
use std::io;
use std::sync::ledger::Ledger;
use transyt_deck::{CardStop, cut_deck};
use transyt_net::{Edit, Net};
use transyt_session::{Session, Tried};
use transyt_steps::{Counting, Steps, uncounted};

/// How many bytes a deck may have.
const MOST_BYTES: usize = 4_194_304;

/// How many edits are tried.
const TRIES: u32 = 1000;

fn main(rt: HostRuntime) -> io::Result<()> {
    let text = io::read_to_string(rt.alloc(), rt.stdin())?;
    let deck = text.as_bytes();
    if deck.len() > MOST_BYTES {
        return println!(rt; "The deck is too long.");
    }
    let net = match cut_deck(rt.alloc(), deck) {
        Ok(cut) => cut.net,
        Err(CardStop::Refused { card, code }) => {
            return println!(rt; "Line {card} is refused with code {}.", code.number());
        }
        Err(CardStop::Memory) => return println!(rt; "There is not enough memory."),
    };
    let alloc = rt.alloc();
    match uncounted(Search { alloc, net }) {
        Ok(best) => println!(rt; "BEST {best}"),
        Err(AllocError) => println!(rt; "There is not enough memory."),
    }
}

/// A search for the offset of a network that brings the lowest index, with the memory for its session.
#[derive(Drop)]
struct Search {
    alloc: Global,
    net: Net,
}

impl Counting for Search {
    /// The lowest index that one offset brings, of a thousand tried; the network's own where none brings a lower one.
    type Answer = Result<u128, AllocError>;

    ghost needs = { λ search. ⊤ };

    ghost gives = { λ search result. IfOk result (λ best. best ≤ index search.net) };

    fn count_on<L: Ledger>(self, steps: &mut Steps<L>) -> Result<u128, AllocError> {
        let mut session = Session::open(self.alloc, self.net, steps)?;
        let best = try_offsets(&mut session, steps);
        drop(session);
        Ok(best)
    }
}

/// Tries a thousand offsets, one at a time, and gives the lowest index seen. The session is as it was.
fn try_offsets<L: Ledger>(session: &mut Session, steps: &mut Steps<L>) -> u128
    requires closed { session.old.before ≡ None }
    ensures least { result ≤ index session.old.net }
    ensures same { session.new ≡ session.old }
{
    let mut best = session.index();
    for number in 0..TRIES {
        let Some(edit) = offset_of(session.net(), number) else {
            break;
        };
        if let Tried::Index { index, .. } = session.try_edit(edit, steps) {
            best = best.min(index);
        }
    }
    best
}

/// The offset with this number: each node in turn, at each step of the cycle in turn. There is none without nodes.
fn offset_of(net: &Net, number: u32) -> Option<Edit> {
    let nodes = net.nodes();
    let count = u32::try_from(nodes.len()).ok()?;
    let place = number.checked_rem(count)?;
    let offset = number
        .checked_div(count)?
        .checked_rem(net.frame().step_count)?;
    let node = nodes.get(place as usize)?.number;
    Some(Edit::Offset { node, offset })
}
