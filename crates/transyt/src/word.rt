//! The words that the program takes, and what each does:
//!
//! - `run` and `run w` write the report of a deck and its commands, with one worker or w, 1 to 8, but no more than the
//!   gate lets in at once;
//! - `make seed nodes` writes the deck text of the town that is made from the seed;
//! - `brief seed nodes` and `brief seed nodes w` climb once on that town and write one line;
//! - `counts` turns a table of counts after a deck into commands;
//! - `equisat` writes greens of equal saturation for each node of a deck;
//! - `audit` tells whether the lines after a deck prove that no listed move lowers its index;
//! - `scan w low high by` climbs on a deck at the cycle times low, low + by and so on up to high, with w workers;
//! - `cycles w low high by` does so with steps as many seconds long as the deck's, and writes the deck of the best;
//! - `starts w seed count` climbs on a deck from so many starts, whose offsets are drawn from the seed, with w
//!   workers, and writes the deck of the best; `starts w seed count from` begins with the start of this number;
//! - `version` writes which program this is.

ghost use Rattle.std.specs.Prelude.{◌≡◌, ◌≤◌, ◌<◌, ◌∷◌, IfSome, map, string_bytes};
ghost use Rattle.std.specs.Option.{option_map};
ghost use Rattle.transyt_climbs.specs.Scan.{IsScan};
ghost use Rattle.transyt_io.specs.Streams.{Rose};
ghost use Rattle.transyt_words.specs.Plans.{IsStarts};
ghost use Rattle.transyt.specs.Numbers.{workers_of, nodes_of, town_of, starts_asked, times_of, IsTown};
ghost use Rattle.transyt.specs.Tasks.{TaskOutcome, IsWriting};
ghost use Rattle.transyt.specs.Words.{alone, run_word, make_word, brief_word, task, word_of, IsWord, WordSteps};

use crate::town::{Brief, Town, write_made};
use crate::version::write_version;
use std::alloc::Global;
use std::sync::ledger::Ledger;
use std::thread::Threads;
use transyt_climbs::ScanWord;
use transyt_desks::Gate;
use transyt_io::{Sink, Source};
use transyt_num::read_number;
use transyt_outcome::Status;
use transyt_reporter::{Workers, run_deck};
use transyt_steps::Steps;
use transyt_syntax::is_word;
use transyt_words::{AuditWord, CountsWord, CyclesWord, EquisatWord, HostedWord, StartsWord};

/// The task that words ask for.
#[derive(Clone, Copy, Drop)]
pub(crate) enum Word {
    /// The report of a deck and its commands.
    Run {
        /// How many workers climb, 1 to 8.
        workers: u32,
    },
    /// The deck text of a town that is made from a seed.
    Make {
        /// The town.
        town: Town,
    },
    /// A climb on such a town, in one line.
    Brief {
        /// The town.
        town: Town,
        /// How many workers climb, 1 to 8.
        workers: u32,
    },
    /// Commands from a table of counts after a deck.
    Counts,
    /// Greens of equal saturation for each node of a deck.
    Equisat,
    /// Whether the lines after a deck prove that no listed move lowers its index.
    Audit,
    /// Climbs of a deck over cycle times, with as many steps as the deck has.
    Scan {
        /// The cycle times, and how many workers climb.
        asked: ScanWord,
    },
    /// Climbs of a deck over cycle times, with steps as long as the deck's.
    Cycles {
        /// The cycle times, and how many workers climb.
        asked: ScanWord,
    },
    /// Which program this is, and what it was proved with.
    Version,
    /// Climbs of a deck from starts with drawn offsets.
    Starts {
        /// The seed, which starts are climbed from, and how many workers climb.
        asked: StartsWord,
    },
}

/// The number of workers of a word: one digit from 1 to 8.
fn workers_of(word: &[u8]) -> Option<u32>
    ensures value { result ≡ workers_of word.now }
    ensures within { IfSome result (λ n. (1 ≤ n) × (n ≤ 8)) }
{
    match word {
        [digit] if b'1' <= *digit && *digit <= b'8' => Some(u32::from(*digit - b'0')),
        _ => None,
    }
}

/// The number of nodes of a word, 1 to 200.
fn nodes_of(word: &[u8]) -> Option<u32>
    ensures value { result ≡ nodes_of word.now }
    ensures within { IfSome result (λ n. (1 ≤ n) × (n ≤ 200)) }
{
    match read_number(word) {
        Some(n) if 1 <= n && n <= 200 => Some(n),
        _ => None,
    }
}

/// A word that stands alone.
fn alone(word: Word, rest: &[String]) -> Option<Word>
    requires { IsWord word }
    ensures word { result ≡ alone word (map string_bytes rest.now) }
    ensures within { IfSome result IsWord }
{
    match rest {
        [] => Some(word),
        _ => None,
    }
}

/// `run` and `run w`, by what stands after `run`.
fn run_word(rest: &[String]) -> Option<Word>
    ensures word { result ≡ run_word (map string_bytes rest.now) }
    ensures within { IfSome result IsWord }
{
    match rest {
        [] => Some(Word::Run { workers: 1 }),
        [workers] => {
            let workers = workers_of(workers.as_bytes())?;
            Some(Word::Run { workers })
        }
        _ => None,
    }
}

/// The town of two words.
fn town_of(seed: &[u8], nodes: &[u8]) -> Option<Town>
    ensures value { result ≡ town_of seed.now nodes.now }
    ensures within { IfSome result IsTown }
{
    let seed = read_number(seed)?;
    let nodes = nodes_of(nodes)?;
    Some(Town { seed, nodes })
}

/// `make seed nodes`.
fn make_word(rest: &[String]) -> Option<Word>
    ensures word { result ≡ make_word (map string_bytes rest.now) }
    ensures within { IfSome result IsWord }
{
    let [seed, nodes] = rest else {
        return None;
    };
    let town = town_of(seed.as_bytes(), nodes.as_bytes())?;
    Some(Word::Make { town })
}

/// `brief seed nodes` and `brief seed nodes w`.
fn brief_word(rest: &[String]) -> Option<Word>
    ensures word { result ≡ brief_word (map string_bytes rest.now) }
    ensures within { IfSome result IsWord }
{
    match rest {
        [seed, nodes] => {
            let town = town_of(seed.as_bytes(), nodes.as_bytes())?;
            Some(Word::Brief { town, workers: 1 })
        }
        [seed, nodes, workers] => {
            let town = town_of(seed.as_bytes(), nodes.as_bytes())?;
            let workers = workers_of(workers.as_bytes())?;
            Some(Word::Brief { town, workers })
        }
        _ => None,
    }
}

/// `w low high by`.
fn times_of(rest: &[String]) -> Option<ScanWord>
    ensures value { result ≡ times_of (map string_bytes rest.now) }
    ensures within { IfSome result IsScan }
{
    let [workers, low, high, by] = rest else {
        return None;
    };
    let workers = workers_of(workers.as_bytes())?;
    let low = read_number(low.as_bytes())?;
    let high = read_number(high.as_bytes())?;
    let by = read_number(by.as_bytes())?;
    ScanWord::new(workers, low, high, by)
}

/// `scan w low high by`.
fn scan_word(rest: &[String]) -> Option<Word>
    ensures word { result ≡ option_map Word.Scan (times_of (map string_bytes rest.now)) }
    ensures within { IfSome result IsWord }
{
    let asked = times_of(rest)?;
    Some(Word::Scan { asked })
}

/// `cycles w low high by`.
fn cycles_word(rest: &[String]) -> Option<Word>
    ensures word { result ≡ option_map Word.Cycles (times_of (map string_bytes rest.now)) }
    ensures within { IfSome result IsWord }
{
    let asked = times_of(rest)?;
    Some(Word::Cycles { asked })
}

/// `w seed count` and `w seed count from`.
fn starts_asked(rest: &[String]) -> Option<StartsWord>
    ensures value { result ≡ starts_asked (map string_bytes rest.now) }
    ensures within { IfSome result IsStarts }
{
    match rest {
        [workers, seed, count] => {
            let workers = workers_of(workers.as_bytes())?;
            let seed = read_number(seed.as_bytes())?;
            let count = read_number(count.as_bytes())?;
            StartsWord::new(workers, seed, count, 0)
        }
        [workers, seed, count, from] => {
            let workers = workers_of(workers.as_bytes())?;
            let seed = read_number(seed.as_bytes())?;
            let count = read_number(count.as_bytes())?;
            let from = read_number(from.as_bytes())?;
            StartsWord::new(workers, seed, count, from)
        }
        _ => None,
    }
}

/// `starts w seed count` and `starts w seed count from`.
fn starts_word(rest: &[String]) -> Option<Word>
    ensures word { result ≡ option_map Word.Starts (starts_asked (map string_bytes rest.now)) }
    ensures within { IfSome result IsWord }
{
    let asked = starts_asked(rest)?;
    Some(Word::Starts { asked })
}

/// The task of a word, by what stands after it.
fn named(name: &[u8], rest: &[String]) -> Option<Word>
    ensures word { result ≡ word_of (name.now ∷ map string_bytes rest.now) }
    ensures within { IfSome result IsWord }
{
    match name {
        _ if is_word(name, b"run") => run_word(rest),
        _ if is_word(name, b"make") => make_word(rest),
        _ if is_word(name, b"brief") => brief_word(rest),
        _ if is_word(name, b"counts") => alone(Word::Counts, rest),
        _ if is_word(name, b"equisat") => alone(Word::Equisat, rest),
        _ if is_word(name, b"scan") => scan_word(rest),
        _ if is_word(name, b"cycles") => cycles_word(rest),
        _ if is_word(name, b"starts") => starts_word(rest),
        _ if is_word(name, b"audit") => alone(Word::Audit, rest),
        _ if is_word(name, b"version") => alone(Word::Version, rest),
        _ => None,
    }
}

/// The task that words ask for; none where the program doesn't take them. It takes no memory.
pub(crate) fn word_of(words: &[String]) -> Option<Word>
    ensures word { result ≡ word_of (map string_bytes words.now) }
    ensures within { IfSome result IsWord }
{
    let [name, rest @ ..] = words else {
        return None;
    };
    named(name.as_bytes(), rest)
}

/// A call with a word: the word, the runtime, whose threads its workers use, the allocator, and the gate that they
/// pass.
#[derive(Drop)]
pub(crate) struct WordCall<'a, R, G> {
    /// The runtime.
    pub(crate) rt: &'a R,
    /// The allocator.
    pub(crate) alloc: Global,
    /// The gate.
    pub(crate) gate: &'a G,
    /// The word.
    pub(crate) word: Word,
}

impl<'a, R, G> WordCall<'a, R, G> {
    /// A word that takes its input whole, with the runtime and the allocator.
    fn hosted<W>(&self, word: W) -> HostedWord<'a, R, W>
        ensures { result.word ≡ word }
    {
        HostedWord {
            rt: self.rt,
            alloc: self.alloc,
            word,
        }
    }
}

impl<'a, R, G: Gate> WordCall<'a, R, G> {
    /// So many workers, but no more than the gate lets in at once.
    fn workers(&self, count: u32) -> Workers<'a, R, G>
        requires some { 1 ≤ count }
        requires most { count ≤ 8 }
        ensures { count ≡ 1 → result.count ≡ 1 }
    {
        let count = match count {
            1 => 1,
            _ => count.min(self.gate.most()),
        };
        Workers {
            rt: self.rt,
            gate: self.gate,
            count,
        }
    }
}

impl<'a, R: Threads + Sync, G: Gate> WordCall<'a, R, G> {
    /// Does what the word asks for. Each word is a function of its own on the stack (`inline(never)`), so that none takes
    /// the room of all.
    #[tactic(auto, using(crate::proofs::TaskLaws::no_steps))]
    pub(crate) fn answer<S: Source, K: Sink, L: Ledger>(
        &self,
        source: &mut S,
        sink: &mut K,
        steps: &mut Steps<L>,
    ) -> Status
        requires { IsWord self.now.word }
        ensures outcome { TaskOutcome (task self.now.word) (S.left source.old) (S.left source.new)
            (S.last source.new)
            (K.written sink.old) (K.written sink.new) result }
        ensures read_fault { result ≡ Status.ReadFault
            → Rose (S.faults source.old) (S.faults source.new) }
        ensures write_fault { result ≡ Status.WriteFault
            → Rose (K.faults sink.old) (K.faults sink.new) }
        ensures untouched { IsWriting (task self.now.word) → source.new ≡ source.old }
        ensures steps { WordSteps self.now.word (S.left source.old) (S.left source.new)
            steps.old steps.new result }
    {
        match self.word {
            Word::Run { workers } => {
                run_deck(self.workers(workers), self.alloc, source, sink, steps)
            }
            Word::Make { town } => write_made(self.alloc, town, sink),
            Word::Brief { town, workers } => {
                let workers = self.workers(workers);
                Brief { town, workers }.write(self.alloc, sink, steps)
            }
            Word::Counts => self.hosted(CountsWord).answer_whole(source, sink, steps),
            Word::Equisat => self.hosted(EquisatWord).answer_whole(source, sink, steps),
            Word::Audit => self.hosted(AuditWord).answer_whole(source, sink, steps),
            Word::Version => write_version(self.alloc, sink),
            Word::Scan { asked } => self.hosted(asked).answer_whole(source, sink, steps),
            Word::Cycles { asked } => {
                self.hosted(CyclesWord { asked })
                    .answer_whole(source, sink, steps)
            }
            Word::Starts { asked } => self.hosted(asked).answer_whole(source, sink, steps),
        }
    }
}
