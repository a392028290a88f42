//! A card: what one line of a deck says.
ghost use Rattle.std.specs.Prelude.{◌≡◌, ◌≤◌, ◌↔◌, ◌-◌, [], drop, length, true, IfSome, IfOk, IsOk, IsTrue};
ghost use Rattle.transyt_syntax.specs.Syntax.{at, named, is_count, said, with_numbers};
ghost use Rattle.transyt_parts.specs.Made.{link_from, new_stage, new_feed, new_rule};
ghost use Rattle.transyt_parts.specs.Valid.{is_frame, link_in_range, stage_in_range, within};
ghost use Rattle.std.specs.List.{list_all};
ghost use Rattle.transyt_deck.specs.Cards.{cards, frame_of, new_link_of};
ghost use Rattle.transyt_deck.specs.Adds.{CanAdd};
ghost use Rattle.transyt_deck.specs.State.{card_in_range};
ghost use Rattle.transyt_deck.specs.declared.card.Card.TheVariants as card;

use crate::so_far::SoFar;
use transyt_io::is_skipped;
use transyt_net::{Feed, Frame, GiveWay, NewLink, Stage, Weights};
use transyt_syntax::{Code, Found, LineWords, NumberRange, Numbers, Refusal, is_word};

/// A card as it is read, whether or not it is in its place and its numbers are in their ranges.
#[derive(Drop)]
pub enum Card {
    /// `FORM f`: the form of the LINK cards.
    Form(u32),
    /// `CYCLE C N S T K k`: the frame.
    Cycle(Frame),
    /// `NODE number offset`: a new node.
    Node {
        /// Its card number.
        number: u32,
        /// Its offset in steps.
        offset: u32,
    },
    /// `STAGE change intergreen least`: the next stage of the last node.
    Stage(Stage),
    /// `LINK number node entry saturation wd ws stage ..`, of form 2 with its two lags before the stages: a new link.
    Link {
        /// All but its stages.
        link: NewLink,
        /// The stages in which it runs.
        stages: Numbers,
    },
    /// `FEED link feeder flow cruise`: the next feed of a link.
    Feed {
        /// The card number of the link.
        link: u32,
        /// Its feed.
        feed: Feed,
    },
    /// `YIELD link other percent`: the give-way rule of a link.
    Yield {
        /// The card number of the link.
        link: u32,
        /// Its rule.
        rule: GiveWay,
    },
    /// `STEPS budget size ..`: the climb plan.
    Steps {
        /// The most places that a climb looks at.
        budget: u32,
        /// The sizes of its moves in steps.
        sizes: Numbers,
    },
    /// `END`: the deck is complete.
    End,
}

/// Reads the card of a line in a deck of this form; `None` for a comment or a blank line. An error is the first of
/// the codes 11, 10, 12 and 13 that holds of the line.
pub(crate) fn read_card(form: u32, line: &[u8]) -> Result<Option<Card>, Refusal>
    ensures card { result ≡ said (cards form) line.now }
    ensures counts { IfOk result (λ found. IfSome found CanAdd) }
{
    if is_skipped(line) {
        return Ok(None);
    }
    let words = LineWords::of(line);
    words.say(card_named(form, words.keyword, &words.further.numbers))
}

/// Whether a word is the keyword of a card.
pub fn is_card(word: &[u8]) -> bool {
    match read_card(1, word) {
        Ok(card) => card.is_some(),
        Err(refusal) => refusal.code() != Code::OddByte,
    }
}

/// The least and the most numbers that a keyword takes in a deck of this form, and the card that it is with these.
fn card_named(form: u32, keyword: &[u8], ns: &Numbers) -> Option<((usize, usize), Card)>
    ensures card { result ≡ with_numbers ns.now (named (cards form) keyword.now) }
    ensures most { IfSome result (λ found. found.0.1 ≤ 17) }
    ensures counts { IfSome result
        (λ found. is_count found.0 (length ns.now) ≡ true → CanAdd found.1) }
{
    entry_named(form, keyword, ns)
}

/// The same, by the table of cards alone.
fn entry_named(form: u32, keyword: &[u8], ns: &Numbers) -> Option<((usize, usize), Card)>
    ensures { result ≡ with_numbers ns.now (named (cards form) keyword.now) }
{
    let (number, offset) = (ns.at(0), ns.at(1));
    match keyword {
        _ if is_word(keyword, b"FORM") => Some(((1, 1), Card::Form(ns.at(0)))),
        _ if is_word(keyword, b"CYCLE") => Some(((5, 6), Card::Cycle(frame_of(ns)))),
        _ if is_word(keyword, b"NODE") => Some(((2, 2), Card::Node { number, offset })),
        _ if is_word(keyword, b"STAGE") => Some(((3, 3), stage_of(ns))),
        _ if is_word(keyword, b"LINK") && form == 2 => {
            Some(((9, 16), link_of(ns, ns.at(6), ns.at(7), 8)))
        }
        _ if is_word(keyword, b"LINK") => Some(((7, 14), link_of(ns, 0, 0, 6))),
        _ if is_word(keyword, b"FEED") => Some(((4, 4), feed_of(ns))),
        _ if is_word(keyword, b"YIELD") => Some(((3, 3), rule_of(ns))),
        _ if is_word(keyword, b"STEPS") => Some(((2, 17), steps_of(ns))),
        _ if is_word(keyword, b"END") => Some(((0, 0), Card::End)),
        _ => None,
    }
}

/// The frame of a CYCLE card's numbers; a dispersion that is left out is 35.
fn frame_of(ns: &Numbers) -> Frame
    ensures { result ≡ frame_of ns.now }
{
    Frame {
        cycle: ns.at(0),
        step_count: ns.at(1),
        sweeps: ns.at(2),
        period: ns.at(3),
        stop_penalty: ns.at(4),
        dispersion: ns.as_slice().get(5).copied().unwrap_or(35),
    }
}

/// The LINK card of these numbers and lags, with its stages after the first `front` numbers.
fn link_of(ns: &Numbers, start_lag: u32, end_lag: u32, front: usize) -> Card
    ensures { result ≡ card.Link (new_link_of ns.now start_lag end_lag) (drop front ns.now) }
{
    let link = NewLink {
        number: ns.at(0),
        node: ns.at(1),
        entry: ns.at(2),
        saturation: ns.at(3),
        weights: Weights {
            delay: ns.at(4),
            stop: ns.at(5),
        },
        start_lag,
        end_lag,
    };
    Card::Link {
        link,
        stages: ns.after(front),
    }
}

/// The STAGE card of these numbers.
fn stage_of(ns: &Numbers) -> Card
    ensures { result ≡ card.Stage (new_stage (at ns.now 0) (at ns.now 1) (at ns.now 2)) }
{
    Card::Stage(Stage {
        change: ns.at(0),
        intergreen: ns.at(1),
        least: ns.at(2),
    })
}

/// The FEED card of these numbers.
fn feed_of(ns: &Numbers) -> Card
    ensures { result ≡ card.Feed (at ns.now 0)
        (new_feed (at ns.now 1) (at ns.now 2) (at ns.now 3)) }
{
    let feed = Feed {
        feeder: ns.at(1),
        flow: ns.at(2),
        cruise: ns.at(3),
    };
    Card::Feed {
        link: ns.at(0),
        feed,
    }
}

/// The YIELD card of these numbers.
fn rule_of(ns: &Numbers) -> Card
    ensures { result ≡ card.Yield (at ns.now 0) (new_rule (at ns.now 1) (at ns.now 2)) }
{
    let rule = GiveWay {
        other: ns.at(1),
        percent: ns.at(2),
    };
    Card::Yield {
        link: ns.at(0),
        rule,
    }
}

/// The STEPS card of these numbers.
fn steps_of(ns: &Numbers) -> Card
    ensures { result ≡ card.Steps (at ns.now 0) (drop 1 ns.now) }
{
    Card::Steps {
        budget: ns.at(0),
        sizes: ns.after(1),
    }
}

/// Looks whether each number of a card is in its range, in a cycle of this many steps; the first that isn't is what was
/// found.
pub(crate) fn card_in_range(step_count: u32, card: &Card) -> Result<(), Found>
    requires { 1 ≤ step_count }
    ensures { IsOk result ↔ IsTrue (card_in_range step_count card.now) }
{
    match card {
        Card::Form(form) => NumberRange::new("form", 1, 2).check(*form),
        Card::Cycle(frame) => frame_in_range(*frame),
        Card::Node { number, offset } => {
            NumberRange::new("node number", 1, 99_999).check(*number)?;
            NumberRange::new("offset", 0, step_count - 1).check(*offset)
        }
        Card::Stage(stage) => stage_in_range(step_count, *stage),
        Card::Link { link, .. } => link_in_range(step_count, *link),
        Card::Feed { feed, .. } => {
            NumberRange::new("feed flow", 0, 9999).check(feed.flow)?;
            NumberRange::new("cruise time", 1, 300).check(feed.cruise)
        }
        Card::Yield { rule, .. } => NumberRange::new("percentage", 0, 400).check(rule.percent),
        Card::Steps { budget, sizes } => {
            NumberRange::new("budget", 1, 1_000_000).check(*budget)?;
            sizes_in_range(step_count, sizes.as_slice())
        }
        Card::End => Ok(()),
    }
}

/// The same of a CYCLE card.
fn frame_in_range(frame: Frame) -> Result<(), Found>
    ensures { IsOk result ↔ IsTrue (is_frame frame) }
{
    NumberRange::new("cycle time", 30, 240).check(frame.cycle)?;
    NumberRange::new("number of steps", 10, 120).check(frame.step_count)?;
    NumberRange::new("number of sweeps", 1, 8).check(frame.sweeps)?;
    NumberRange::new("period", 15, 120).check(frame.period)?;
    NumberRange::new("stop penalty", 0, 9999).check(frame.stop_penalty)?;
    NumberRange::new("dispersion", 0, 100).check(frame.dispersion)
}

/// The same of a STAGE card.
fn stage_in_range(step_count: u32, stage: Stage) -> Result<(), Found>
    requires { 1 ≤ step_count }
    ensures { IsOk result ↔ IsTrue (stage_in_range step_count stage) }
{
    NumberRange::new("change", 0, step_count - 1).check(stage.change)?;
    NumberRange::new("intergreen", 0, step_count - 1).check(stage.intergreen)?;
    NumberRange::new("least green", 1, step_count).check(stage.least)
}

/// The same of a LINK card.
fn link_in_range(step_count: u32, link: NewLink) -> Result<(), Found>
    requires { 1 ≤ step_count }
    ensures { IsOk result ↔ IsTrue (link_in_range step_count (link_from link [])) }
{
    NumberRange::new("link number", 1, 99_999).check(link.number)?;
    NumberRange::new("entry flow", 0, 9999).check(link.entry)?;
    NumberRange::new("saturation flow", 100, 9999).check(link.saturation)?;
    NumberRange::new("delay weight", 0, 999).check(link.weights.delay)?;
    NumberRange::new("stop weight", 0, 999).check(link.weights.stop)?;
    NumberRange::new("start lag", 0, step_count - 1).check(link.start_lag)?;
    NumberRange::new("end lag", 0, step_count - 1).check(link.end_lag)
}

/// The same of the sizes of a STEPS card.
fn sizes_in_range(step_count: u32, sizes: &[u32]) -> Result<(), Found>
    requires { 1 ≤ step_count }
    ensures { IsOk result ↔ IsTrue (list_all (within 1 (step_count - 1)) sizes.now) }
{
    match sizes {
        [] => Ok(()),
        [first, rest @ ..] => {
            NumberRange::new("step size", 1, step_count - 1).check(*first)?;
            sizes_in_range(step_count, rest)
        }
    }
}

impl Card {
    /// What has as many of these cards as it may have.
    pub(crate) fn one_too_many(&self, so_far: &SoFar<'_>) -> Found {
        match self {
            Card::Node { .. } => Found::rule("there are 200 nodes already"),
            Card::Stage(_) => rule("node # has 8 stages already", so_far.last_node(), 0),
            Card::Link { .. } => Found::rule("there are 1000 links already"),
            Card::Feed { link, .. } => rule("link # has 8 feeds already", *link, 0),
            _ => Found::Nothing,
        }
    }

    /// The number of the card that is there already.
    pub(crate) fn twice(&self, so_far: &SoFar<'_>) -> Found {
        match self {
            Card::Node { number, .. } => rule("there is a node # already", *number, 0),
            Card::Link { link, stages } => link_twice(link.number, stages.as_slice(), so_far),
            Card::Feed { link, feed } => {
                rule("link # has a feed from link # already", *link, feed.feeder)
            }
            Card::Yield { link, .. } => rule("link # has a give-way rule already", *link, 0),
            _ => Found::Nothing,
        }
    }

    /// The node, link or stage that the card names and that isn't there.
    pub(crate) fn unknown(&self, so_far: &SoFar<'_>) -> Found {
        match self {
            Card::Link { link, stages } => so_far.missing_stage(link.node, stages.as_slice()),
            Card::Feed { link, feed } => so_far.missing_link(*link, feed.feeder),
            Card::Yield { link, rule } => so_far.missing_link(*link, rule.other),
            _ => Found::Nothing,
        }
    }
}

/// A rule that a card breaks, in words with two numbers at most.
fn rule(form: &'static str, first: u32, second: u32) -> Found {
    Found::Rule {
        form,
        numbers: [first, second],
    }
}

/// The number of a LINK card that is there already, or the stage that stands in it twice.
fn link_twice(number: u32, stages: &[u32], so_far: &SoFar<'_>) -> Found {
    if so_far.has_link(number) {
        return rule("there is a link # already", number, 0);
    }
    rule(
        "stage # stands twice in link #",
        first_twice(stages),
        number,
    )
}

/// The first number that stands in a list once more; 0 where none does.
fn first_twice(numbers: &[u32]) -> u32 {
    let mut place: usize = 0;
    for number in numbers {
        place = place.saturating_add(1);
        if let Some(later) = numbers.get(place..) {
            if later.contains(number) {
                return *number;
            }
        }
    }
    0
}
