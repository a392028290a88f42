//! When a link is green, and the GO of its green.

ghost use Rattle.std.specs.Prelude.{◌≡◌, ℕ, ◌^◌, ◌+◌, ◌<◌, ◌≤◌, ◌&&◌, ◌||◌, nat_le, nat_lt, length, map, All};
ghost use Rattle.std.specs.Prelude.{slice_index_or, false, if◌then◌else◌, IsTrue, ◌↔◌};
ghost use Rattle.std.specs.List.{range_with_len};
ghost use Rattle.transyt_cycle.specs.Cycle.{minus_mod, step_before};
ghost use Rattle.transyt_parts.specs.Plan.{stage_of, length_at};
ghost use Rattle.transyt_net.specs.Parts.{link_of};
ghost use Rattle.transyt_net.specs.Edits.{the_node};
ghost use Rattle.transyt_stage.specs.Green.{runs_in, shows, is_shown, shown_of, opens, is_held};
ghost use Rattle.transyt_stage.specs.Green.{is_starting};
ghost use Rattle.transyt_stage.specs.Green.{green_at, is_green, passed_at, signal, IsGreen};

use crate::shown::{Shown, ShownStep};
use crate::signals::{NetLink, Signals, Span};
use transyt_cycle::{minus_mod, step_before};
use transyt_net::{Net, Node, Stage, stage_length};

/// The most steps that a cycle has.
const MOST_STEPS: usize = 120;

/// Whether the link at a place is green at a step.
///
/// It is where it is shown at the step or at one of the steps of its end lag before it, and none of the steps of its
/// start lag, up to the step, opens it. Links are numbered in card order and steps in time, both from 0. Stages and
/// intergreens are those of LR 253; lags and the green through a shared intergreen are this project's own.
pub fn is_green(net: &Net, link: usize, step: u32) -> bool
    requires link { link < length net.now.links }
    requires step { step < net.now.frame.step_count }
    ensures value { result ≡ is_green net.now link step }
    // the same as a fact: some stage shows it within the end lag, and no step within the start lag opens it
    ensures by_stage { IsTrue result ↔ IsGreen net.now link step }
{
    test_green(&NetLink { net, place: link }, step as usize)
}

/// The test of `is_green`.
fn test_green(at: &NetLink<'_>, step: usize) -> bool
    requires { step < at.now.net.now.frame.step_count }
    ensures { result ≡ is_green at.now.net.now at.now.place step }
{
    let signals = signals(at);
    let mut steps = [false; MOST_STEPS];
    let steps = &mut steps[..signals.step_count as usize];
    fill_shown(&signals, steps);
    let link = at.net.link(at.place);
    let shown = Shown {
        steps,
        start_lag: link.start_lag,
        end_lag: link.end_lag,
    };
    green_at(&ShownStep { shown, step })
}

/// The signals of a link.
fn signals<'a>(at: &NetLink<'a>) -> Signals<'a>
    ensures steps { result.step_count ≡ at.now.net.now.frame.step_count }
    ensures node { result.node.now
        ≡ the_node at.now.net.now (link_of at.now.net.now at.now.place).node }
    ensures stages { result.stages.now ≡ (link_of at.now.net.now at.now.place).stages }
{
    Signals {
        step_count: at.net.frame().step_count,
        node: at.net.node_of(at.place),
        stages: &at.net.link(at.place).stages,
    }
}

/// Fills `out` with the GO of the link at a place in each step by its green alone, in millionths of a vehicle.
///
/// `out` has one value for each step of the cycle, and is overwritten. It is the saturation flow of a
/// step, rounded down, in each step of green, and 0 in the others.
pub fn fill_go(net: &Net, link: usize, out: &mut [u64])
    requires link { link < length net.now.links }
    requires steps { length out.old ≡ net.now.frame.step_count }
    ensures value { out.new ≡ signal net.now link }
    ensures small { All (λ v. v < 2 ^ 30) out.new }
{
    let at = NetLink { net, place: link };
    let found = net.link(link);
    if found.start_lag > 0 || found.end_lag > 0 {
        fill_lagged(&at, out);
        return;
    }
    let room = net.per_step(found.saturation);
    out.fill(0);
    show_stages(&signals(&at), room, out);
}

/// Fills GO of a link with lags: first the steps at which green is shown, then those at which traffic goes.
fn fill_lagged(at: &NetLink<'_>, out: &mut [u64])
    requires { length out.old ≡ at.now.net.now.frame.step_count }
    ensures value { out.new ≡ signal at.now.net.now at.now.place }
    ensures small { All (λ v. v < 2 ^ 30) out.new }
{
    let signals = signals(at);
    let mut steps = [false; MOST_STEPS];
    let steps = &mut steps[..signals.step_count as usize];
    fill_shown(&signals, steps);
    let link = at.net.link(at.place);
    let shown = Shown {
        steps,
        start_lag: link.start_lag,
        end_lag: link.end_lag,
    };
    let room = at.net.per_step(link.saturation);
    fill_passed(&shown, room, out);
}

/// Gives each step its GO by the green: `room` in a step of green, else nothing.
#[tactic(auto, using(std::proofs::lemmas::List::get_or_default))]
fn fill_passed(shown: &Shown<'_>, room: u64, out: &mut [u64])
    requires steps { length out.old ≡ length shown.now.steps.now }
    requires room { room < 2 ^ 30 }
    ensures value { out.new
        ≡ map (passed_at shown.now.steps.now shown.now.start_lag shown.now.end_lag room)
        (range_with_len 0 (length out.old)) }
    ensures small { All (λ v. v < 2 ^ 30) out.new }
{
    for i in 0..out.len() {
        let at = ShownStep {
            shown: *shown,
            step: i,
        };
        out[i] = if green_at(&at) { room } else { 0 };
    }
}

/// Whether a link is green at a step, by the steps at which it is shown and by its lags.
fn green_at(at: &ShownStep<'_>) -> bool
    ensures { result ≡ green_at at.now.shown.steps.now at.now.shown.start_lag at.now.shown.end_lag
        at.now.step }
{
    is_held(at) && !is_starting(at)
}

/// Whether the link is shown at a step or at one of the steps of its end lag before it.
fn is_held(at: &ShownStep<'_>) -> bool
    ensures { result ≡ is_held at.now.shown.steps.now at.now.shown.end_lag at.now.step }
{
    for back in 0..at.shown.end_lag + 1 {
        let before = step_back(at, back);
        if before.shown.steps[before.step] {
            return true;
        }
    }
    false
}

/// Whether one of the steps of the start lag, up to a step, opens the link.
fn is_starting(at: &ShownStep<'_>) -> bool
    ensures { result ≡ is_starting at.now.shown.steps.now at.now.shown.start_lag at.now.step }
{
    for back in 0..at.shown.start_lag {
        if opens(&step_back(at, back)) {
            return true;
        }
    }
    false
}

/// Whether a step opens the link: it is shown at it, and not at the step before.
fn opens(at: &ShownStep<'_>) -> bool
    ensures { result ≡ opens at.now.shown.steps.now at.now.step }
{
    let steps = at.shown.steps;
    let before = step_before(steps.len() as u64, at.step as u64) as usize;
    steps[at.step] && !steps[before]
}

/// The step that lies a number of steps before a step, round the cycle.
fn step_back<'a>(at: &ShownStep<'a>, back: u32) -> ShownStep<'a>
    ensures shown { result.shown.steps.now ≡ at.now.shown.steps.now }
    ensures step { result.step ≡ minus_mod (length at.now.shown.steps.now) at.now.step back }
{
    let step_count = at.shown.steps.len();
    let steps = back as usize;
    // most steps need no division
    let step = if steps <= at.step {
        at.step - steps
    } else if steps <= step_count {
        step_count - (steps - at.step)
    } else {
        minus_mod(step_count as u64, at.step as u64, u64::from(back)) as usize
    };
    ShownStep {
        shown: at.shown,
        step,
    }
}

/// Tells for each step whether the link is shown at it.
#[tactic(auto, using(crate::proofs::ShownLaws::shown_is))]
fn fill_shown(signals: &Signals<'_>, shown: &mut [bool])
    requires { length shown.old ≡ signals.now.step_count }
    ensures { shown.new
        ≡ shown_of signals.now.step_count signals.now.node.now signals.now.stages.now }
{
    shown.fill(false);
    show_stages(signals, true, shown);
}

/// Gives `value` to the steps at which the link is shown.
fn show_stages<T: Copy>(signals: &Signals<'_>, value: T, out: &mut [T])
    requires { length out.old ≡ signals.now.step_count }
    ensures steps { length out.new ≡ length out.old }
    ensures shown { (i : ℕ) → (other : T) → i < signals.now.step_count
        → slice_index_or out.new i other
        ≡ (if is_shown signals.now.step_count signals.now.node.now signals.now.stages.now i
        then value else slice_index_or out.old i other) }
{
    let node = signals.node;
    for place in 0..node.stages.len() {
        show_stage(signals, place, value, out);
    }
}

/// Gives `value` to the steps at which the stage at a place shows the link.
fn show_stage<T: Copy>(signals: &Signals<'_>, place: usize, value: T, out: &mut [T])
    requires place { place < length signals.now.node.now.stages }
    requires steps { length out.old ≡ signals.now.step_count }
    ensures steps { length out.new ≡ length out.old }
    ensures shown { (i : ℕ) → (other : T) → i < signals.now.step_count
        → slice_index_or out.new i other
        ≡ (if shows signals.now.step_count signals.now.node.now signals.now.stages.now i place
        then value else slice_index_or out.old i other) }
{
    if !runs_in(signals.stages, place) {
        return;
    }
    show_steps(&span(signals, place), value, out);
}

/// The steps at which the stage at a place shows a link that runs in it: from its first where the link runs in the
/// stage before too, else from the first after its intergreen.
fn span(signals: &Signals<'_>, place: usize) -> Span
    requires { place < length signals.now.node.now.stages }
    ensures steps { result.step_count ≡ signals.now.step_count }
    ensures change { result.change
        ≡ signals.now.node.now.offset + (stage_of signals.now.node.now.stages place).change }
    ensures from { result.from ≡ (if runs_in signals.now.stages.now
        (step_before (length signals.now.node.now.stages) place)
        then 0 else (stage_of signals.now.node.now.stages place).intergreen) }
    ensures to { result.to ≡ length_at signals.now.step_count signals.now.node.now.stages place }
{
    let node = signals.node;
    let stage = stage_at(node, place);
    let before = step_before(node.stages.len() as u64, place as u64) as usize;
    Span {
        step_count: signals.step_count,
        change: node.offset + stage.change,
        from: if runs_in(signals.stages, before) {
            0
        } else {
            stage.intergreen
        },
        to: stage_length(node, signals.step_count, place as u32 + 1),
    }
}

/// Gives `value` to the steps of a span.
fn show_steps<T: Copy>(span: &Span, value: T, out: &mut [T])
    requires { length out.old ≡ span.now.step_count }
    ensures steps { length out.new ≡ length out.old }
    ensures shown { (i : ℕ) → (other : T) → i < span.now.step_count → slice_index_or out.new i other
        ≡ (if nat_le span.now.from (minus_mod span.now.step_count i span.now.change) && nat_lt
        (minus_mod span.now.step_count i span.now.change) span.now.to
        then value else slice_index_or out.old i other) }
{
    let step_count = span.step_count as usize;
    let start = (span.change + span.from) as usize % step_count;
    let end = start + span.to.saturating_sub(span.from) as usize;
    fill_steps(start, end.min(step_count), value, out);
    // the steps past the last one come round to the first
    fill_steps(0, end.saturating_sub(step_count), value, out);
}

/// Gives `value` to the steps from `from` to the one before `to`.
fn fill_steps<T: Copy>(from: usize, to: usize, value: T, out: &mut [T])
    requires order { from ≤ to }
    requires within { to ≤ length out.old }
    ensures steps { length out.new ≡ length out.old }
    ensures filled { (i : ℕ) → (other : T) → i < length out.old → slice_index_or out.new i other
        ≡ (if nat_le from i && nat_lt i to then value else slice_index_or out.old i other) }
{
    for step in from..to {
        out[step] = value;
    }
}

/// Whether a link that runs in these stages runs in the stage at a place; stages are numbered from 1.
fn runs_in(stages: &[u32], place: usize) -> bool
    ensures { result ≡ runs_in stages.now place }
{
    stages.iter().any(|stage| *stage as usize > 0 && place == *stage as usize - 1)
}

/// The stage at a place.
fn stage_at(node: &Node, place: usize) -> Stage
    requires { place < length node.now.stages }
    ensures { result ≡ stage_of node.now.stages place }
{
    node.stages[place]
}
