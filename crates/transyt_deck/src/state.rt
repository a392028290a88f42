//! The state of a deck after its cards so far, and after one card more.
ghost use Rattle.std.specs.Prelude.{◌≡◌, ◌≢◌, ℕ, OnOk, OnErr, IfOk, IfErr, Ok, Err, Some, true, false};
ghost use Rattle.transyt_deck.specs.Deck.{deck_at, is_open, is_complete};
ghost use Rattle.transyt_net.specs.Faults.{Refuses};
ghost use Rattle.transyt_deck.specs.declared.card.Card.TheVariants.{End};
ghost use Rattle.transyt_deck.specs.declared.state.State.TheVariants as state;
ghost use Rattle.transyt_deck.specs.State.{rank, up_to, part_of, takes, fault_of, net_with, added, plan_code};
ghost use Rattle.transyt_deck.specs.State.{form_of, framed, state_with, state_after};
ghost use Rattle.transyt_deck.specs.declared.state.Stop.TheVariants as stop;
ghost use Rattle.transyt_deck.specs.Adds.{Adds, CanAdd, IsTied, IsTiedState, stopped};

use crate::card::{Card, card_in_range, read_card};
use crate::so_far::SoFar;
use std::alloc::Global;
use std::mem;
use transyt_net::{Draft, DraftFault, PlanFault};
use transyt_syntax::{Code, Found, Refusal};

/// How far a deck has come from its CYCLE card on; later parts come later.
#[derive(Clone, Copy)]
pub enum Part {
    /// Only the CYCLE card.
    Frame,
    /// Nodes with their stages.
    Nodes,
    /// Links.
    Links,
    /// Feeds and give-way rules.
    Feeds,
    /// The climb plan.
    Plan,
    /// END.
    End,
}

impl Part {
    /// The part in which a card stands.
    fn of(card: &Card) -> Part
        ensures { result ≡ part_of card.now }
    {
        match card {
            Card::Form(_) | Card::Cycle(_) => Part::Frame,
            Card::Node { .. } | Card::Stage(_) => Part::Nodes,
            Card::Link { .. } => Part::Links,
            Card::Feed { .. } | Card::Yield { .. } => Part::Feeds,
            Card::Steps { .. } => Part::Plan,
            Card::End => Part::End,
        }
    }

    /// The place of the part in the order, from 0.
    fn rank(self) -> u32
        ensures { result ≡ rank self }
    {
        match self {
            Part::Frame => 0,
            Part::Nodes => 1,
            Part::Links => 2,
            Part::Feeds => 3,
            Part::Plan => 4,
            Part::End => 5,
        }
    }

    /// Whether a deck at this part has come no further than to `last`.
    fn is_up_to(self, last: Part) -> bool
        ensures { result ≡ up_to last self }
    {
        self.rank() <= last.rank()
    }

    /// Whether a card may stand where a deck has come to this part.
    fn takes(self, card: &Card) -> bool
        ensures { result ≡ takes self card.now }
    {
        match card {
            Card::Form(_) | Card::Cycle(_) => false,
            Card::Stage(_) => self == Part::Nodes,
            Card::Steps { .. } => self.is_up_to(Part::Feeds),
            _ => self.is_up_to(Part::of(card)),
        }
    }
}

/// The state of a deck after its cards so far.
#[derive(Drop)]
pub enum State {
    /// No card yet.
    Start,
    /// A FORM card.
    Formed {
        /// The form of the LINK cards, 1 or 2.
        form: u32,
    },
    /// A CYCLE card and those after it.
    Making {
        /// The form of the LINK cards, 1 or 2.
        form: u32,
        /// How far the deck has come.
        part: Part,
        /// The network so far.
        draft: Draft,
    },
}

/// Why a card isn't taken.
#[derive(Drop)]
pub(crate) enum Stop<C> {
    /// The card's first code.
    Code(C),
    /// Out of memory.
    Memory,
}

impl State {
    /// The form of the LINK cards.
    pub(crate) fn form(&self) -> u32
        ensures { result ≡ form_of self.now }
    {
        match self {
            State::Start => 1,
            State::Formed { form } => *form,
            State::Making { form, .. } => *form,
        }
    }

    /// Which card keeps one that is out of its place from standing after these cards, in words.
    fn in_the_way(&self, card: &Card) -> &'static str {
        let State::Making { part, draft, .. } = self else {
            return match card {
                Card::Form(_) => "this card can't stand after a FORM",
                _ => "this card can't stand before CYCLE",
            };
        };
        match (card, part) {
            (Card::Form(_) | Card::Cycle(_), _) => "this card can't stand after CYCLE",
            (_, Part::Frame) => "this card can't stand before a NODE",
            (_, Part::Nodes | Part::Links) => "this card can't stand after a LINK",
            (_, Part::Feeds) => {
                if draft.links().iter().any(|link| !link.feeds.is_empty()) {
                    "this card can't stand after a FEED"
                } else {
                    "this card can't stand after a YIELD"
                }
            }
            (_, Part::Plan | Part::End) => "this card can't stand after STEPS",
        }
    }

    /// Whether END was accepted.
    pub(crate) fn is_ended(&self) -> bool
        ensures open { (n : ℕ) → result ≡ false → is_open (deck_at n self.now) ≡ true }
        ensures complete { (n : ℕ) → result ≡ true → is_complete (deck_at n self.now) ≡ true }
    {
        match self {
            State::Start | State::Formed { .. } => false,
            State::Making { part, .. } => *part == Part::End,
        }
    }
}

/// Takes one line; a line that is refused changes nothing.
pub(crate) fn take_line(alloc: Global, state: &mut State, line: &[u8]) -> Result<(), Stop<Refusal>>
    requires tied { IsTiedState state.old }
    ensures adds { Adds (state_after state.old line.now) state.old state.new result }
    ensures stays_tied { IsTiedState state.new }
{
    match read_card(state.form(), line) {
        Ok(None) => Ok(()),
        Ok(Some(card)) => match add(alloc, state, &card) {
            Ok(()) => Ok(()),
            Err(Stop::Code(code)) => Err(Stop::Code(explained(state, &card, code))),
            Err(Stop::Memory) => Err(Stop::Memory),
        },
        Err(refusal) => Err(Stop::Code(refusal)),
    }
}

/// The refusal with this code of a card after the cards of a state, which is explained by both.
fn explained(state: &State, card: &Card, code: Code) -> Refusal
    ensures { result ≡ code }
{
    let so_far = SoFar::of(state);
    let found = match code {
        Code::OutOfPlace => Found::rule(state.in_the_way(card)),
        Code::TooMany => card.one_too_many(&so_far),
        Code::Twice => card.twice(&so_far),
        Code::Unknown => card.unknown(&so_far),
        Code::Range => Found::by(card_in_range(so_far.step_count(), card)),
        _ => Found::by(so_far.check_plans()),
    };
    Refusal::new(code, found)
}

/// Adds one card; a card that is refused changes nothing.
fn add(alloc: Global, state: &mut State, card: &Card) -> Result<(), Stop<Code>>
    requires tied { IsTiedState state.old }
    requires counts { CanAdd card.now }
    ensures adds { Adds (state_with state.old card.now) state.old state.new result }
    ensures stays_tied { IsTiedState state.new }
{
    match state {
        State::Start => replace(state, first(alloc, card)),
        State::Formed { form } => {
            let begun = begin(alloc, *form, card);
            replace(state, begun)
        }
        State::Making { part, draft, .. } => add_to(part, draft, card),
    }
}

/// Puts the state that a card begins in the place of the one before; a card that is refused changes nothing. The old
/// state is dropped by a call, as wherever a state is dropped: its drop is then proved once.
fn replace(state: &mut State, begun: Result<State, Code>) -> Result<(), Stop<Code>>
    ensures begun { IfOk begun (λ new. (state.new ≡ new) × (result ≡ Ok tt)) }
    ensures refused { IfErr begun
        (λ code. (state.new ≡ state.old) × (result ≡ Err (stop.Code code))) }
{
    match begun {
        Ok(new) => {
            let old = mem::replace(state, new);
            drop(old);
            Ok(())
        }
        Err(code) => Err(Stop::Code(code)),
    }
}

/// The first card of a deck.
fn first(alloc: Global, card: &Card) -> Result<State, Code>
    ensures begun { result ≡ state_with state.Start card.now }
    ensures tied { IfOk result IsTiedState }
{
    match card {
        Card::Form(form) => {
            if *form < 1 || *form > 2 {
                return Err(Code::Range);
            }
            Ok(State::Formed { form: *form })
        }
        _ => begin(alloc, 1, card),
    }
}

/// A card before the CYCLE card, in a deck of this form.
fn begin(alloc: Global, form: u32, card: &Card) -> Result<State, Code>
    ensures begun { result ≡ framed form card.now }
    ensures tied { IfOk result IsTiedState }
{
    match card {
        Card::Cycle(frame) => match Draft::new(alloc, *frame) {
            Ok(draft) => Ok(State::Making {
                form,
                part: Part::Frame,
                draft,
            }),
            Err(_) => Err(Code::Range),
        },
        _ => Err(Code::OutOfPlace),
    }
}

/// A card after the CYCLE card.
fn add_to(part: &mut Part, draft: &mut Draft, card: &Card) -> Result<(), Stop<Code>>
    requires tied { IsTied part.old draft.old }
    requires counts { CanAdd card.now }
    ensures adds { Adds (added part.old draft.old card.now)
        (part.old, draft.old) (part.new, draft.new) result }
    ensures stays_tied { IsTied part.new draft.new }
{
    if let Card::End = card {
        return end(part, draft);
    }
    if !part.takes(card) {
        return Err(Stop::Code(Code::OutOfPlace));
    }
    stopped(enter(*part, draft, card))?;
    *part = Part::of(card);
    Ok(())
}

/// Enters a card before END in the draft of a deck that has come to this part; a card with a fault changes nothing.
fn enter(part: Part, draft: &mut Draft, card: &Card) -> Result<(), DraftFault>
    requires tied { IsTied part draft.old }
    requires takes { takes part card.now ≡ true }
    requires early { card.now ≢ End }
    requires counts { CanAdd card.now }
    ensures refuses { Refuses result (fault_of draft.old card.now) (Some DraftFault.Memory) }
    ensures ok { OnOk result (draft.new ≡ net_with draft.old card.now) }
    ensures err { OnErr result (draft.new ≡ draft.old) }
    ensures tied { OnOk result (IsTied (part_of card.now) draft.new) }
{
    match card {
        Card::Form(_) | Card::Cycle(_) | Card::End => Ok(()),
        Card::Node { number, offset } => draft.node(*number, *offset),
        Card::Stage(stage) => draft.stage(stage.change, stage.intergreen, stage.least),
        Card::Link { link, stages } => draft.link(*link, stages.as_slice()),
        Card::Feed { link, feed } => draft.feed(*link, feed.feeder, feed.flow, feed.cruise),
        Card::Yield { link, rule } => draft.give_way(*link, rule.other, rule.percent),
        Card::Steps { budget, sizes } => draft.plan(*budget, sizes.as_slice()),
    }
}

/// An END card: the stage plans are judged, node by node.
fn end(part: &mut Part, draft: &Draft) -> Result<(), Stop<Code>>
    ensures adds { Adds (added part.old draft.now End)
        (part.old, draft.now) (part.new, draft.now) result }
    ensures tied { OnOk result (IsTied part.new draft.now) }
    ensures kept { OnErr result (part.new ≡ part.old) }
{
    match draft.judge() {
        None => {
            *part = Part::End;
            Ok(())
        }
        Some(fault) => Err(Stop::Code(plan_code(fault))),
    }
}

/// The outcome of a call of the draft, with its fault as a stop.
fn stopped(outcome: Result<(), DraftFault>) -> Result<(), Stop<Code>>
    ensures { result ≡ stopped outcome }
{
    match outcome {
        Ok(()) => Ok(()),
        Err(DraftFault::Twice) => Err(Stop::Code(Code::Twice)),
        Err(DraftFault::Unknown) => Err(Stop::Code(Code::Unknown)),
        Err(DraftFault::Range) => Err(Stop::Code(Code::Range)),
        Err(DraftFault::TooMany) => Err(Stop::Code(Code::TooMany)),
        Err(DraftFault::Memory) => Err(Stop::Memory),
    }
}

/// The code of a stage plan's fault.
fn plan_code(fault: PlanFault) -> Code
    ensures { result ≡ plan_code fault }
{
    match fault {
        PlanFault::FewStages => Code::FewStages,
        PlanFault::StageOrder => Code::StageOrder,
        PlanFault::LeastGreen => Code::LeastGreen,
    }
}
