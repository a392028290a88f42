//! The word `starts`.

ghost use Rattle.std.specs.Prelude.{◌≡◌, IfSome};
ghost use Rattle.transyt_words.specs.Plans.{IsStarts, starts_of};

use crate::answer::Answer;
use crate::case::Case;
use crate::deck_word::DeckWord;
use crate::table::{Numbered, TableList, answer_case};
use std::alloc::{AllocError, Global};
use std::sync::ledger::Ledger;
use std::thread::Threads;
use transyt_climbs::{NetworkAt, NetworkList};
use transyt_io::Sink;
use transyt_net::Net;
use transyt_steps::Steps;
use transyt_variants::start_net;

/// Climbs from a deck's own offsets and from drawn ones, or from a part of these starts, with so many workers.
#[derive(Clone, Copy, Drop)]
pub struct StartsWord {
    /// How many workers climb, 1 to 8.
    pub workers: u32,
    /// The seed of the draws, at most 999,999,999.
    pub seed: u32,
    /// How many starts are climbed from, 1 to 1,000.
    pub count: u32,
    /// The number of the first of them: start 0 is the deck's own. With the count it is at most 1,000.
    pub from: u32,
}

impl StartsWord {
    /// Climbs with so many workers from so many starts, drawn from a seed, beginning with the start of the number
    /// `from`; none where a number is out of its range.
    pub fn new(workers: u32, seed: u32, count: u32, from: u32) -> Option<StartsWord>
        ensures value { result ≡ starts_of workers seed count from }
        ensures within { IfSome result IsStarts }
    {
        let end = u64::from(from) + u64::from(count);
        let fits = 1 <= workers && workers <= 8 && seed <= 999999999 && 1 <= count && end <= 1000;
        if !fits {
            return None;
        }
        Some(StartsWord {
            workers,
            seed,
            count,
            from,
        })
    }
}

/// The networks of starts that may be asked for.
#[derive(Clone, Copy, Drop)]
struct StartsList {
    asked: StartsWord,
    ghost within: { IsStarts asked },
}

impl NetworkList for StartsList {
    ghost use Rattle.transyt_words.specs.Plans.{starts};

    ghost list = { λ self. starts self.asked.seed self.asked.count self.asked.from };

    fn noun(&self) -> &'static str {
        "start"
    }

    fn workers(&self) -> usize {
        self.asked.workers as usize
    }

    fn count(&self) -> usize {
        self.asked.count as usize
    }

    fn number(&self, place: usize) -> u32 {
        self.asked.from + place as u32
    }

    fn network(&self, alloc: Global, net: &Net, place: usize) -> Result<NetworkAt, AllocError> {
        let number = self.asked.from as usize + place;
        let start = start_net(alloc, net, self.asked.seed, number)?;
        Ok(NetworkAt::Plan(start))
    }
}

impl TableList for StartsList {
    ghost use Rattle.transyt_words.specs.declared.table.Numbered.TheVariants.{Starts};

    ghost kind = { λ self. Starts };

    fn numbered(&self) -> Numbered {
        Numbered::Starts
    }
}

impl DeckWord for StartsWord {
    ghost use Rattle.transyt_words.specs.Plans.{IsStarts, starts_answer};

    ghost fits = { IsStarts };

    ghost answer = { λ self. starts_answer self.seed self.count self.from };

    ghost most = { λ self case. 0 };

    fn judge<R: Threads + Sync, K: Sink, L: Ledger>(
        &self,
        case: &Case<'_, R>,
        sink: &mut K,
        _steps: &mut Steps<L>,
    ) -> Result<Answer, AllocError> {
        answer_case(case, &StartsList { asked: *self }, sink)
    }
}
