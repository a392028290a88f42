//! The queue at the stop line, and the departures.

ghost use Rattle.std.specs.Prelude.{◌≡◌, ℕ, ◌+◌, ◌-◌, ◌*◌, ◌^◌, ◌<◌, ◌≤◌, length, sum, slice_index, All};
ghost use Rattle.transyt_cycle.specs.Cycle.{step_before};
ghost use Rattle.transyt_profile.specs.StopLine.{AreOfTurn, IsQueue, outs, queues, turn};

use crate::flow::Flow;

/// The queue at the end of each step, and the departures in each step.
///
/// All four slices have one value for each step of the cycle, in millionths of a vehicle; `queue` and `out` are
/// overwritten, and nothing is rounded. The arrivals of a cycle are at most its GO, so that the queue of a cycle that
/// repeats for ever is finite. A queue stands at the step's end: arrivals in a step with room depart in it. The
/// recurrence is LR 253's; the queue without a start is this project's own.
pub fn queue(arrivals: &[u64], go: &[u64], queue: &mut [u64], out: &mut [u64])
    requires steps { 0 < length arrivals.now }
    requires most { length arrivals.now ≤ 120 }
    requires go_len { length go.now ≡ length arrivals.now }
    requires queue_len { length queue.old ≡ length arrivals.now }
    requires out_len { length out.old ≡ length arrivals.now }
    requires arrivals_fit { All (λ v. v < 2 ^ 48) arrivals.now }
    requires go_fit { All (λ v. v < 2 ^ 30) go.now }
    requires served { sum arrivals.now ≤ sum go.now }
    ensures queue { queue.new ≡ queues arrivals.now go.now }
    ensures out { out.new ≡ outs arrivals.now go.now }

    // the same without a difference: the queue covers each excess of the last steps, and it is 0 or one of them
    ensures greatest { (i : ℕ) → i < length arrivals.now
        → IsQueue arrivals.now go.now i (slice_index queue.new i) }
    ensures recurrence { (i : ℕ) → i < length arrivals.now → slice_index queue.new i
        ≡ slice_index queue.new (step_before (length arrivals.now) i)
        + slice_index arrivals.now i - slice_index go.now i }
    // no vehicle is lost: departures and the queue after the step are the queue before it and its arrivals
    ensures kept { (i : ℕ) → i < length arrivals.now
        → slice_index out.new i + slice_index queue.new i
        ≡ slice_index queue.new (step_before (length arrivals.now) i) + slice_index arrivals.now i }
    ensures out_at_most_go { (i : ℕ) → slice_index out.new i ≤ slice_index go.now i }
    ensures total { sum out.new ≡ sum arrivals.now }
    ensures queue_small { All (λ v. v < 2 ^ 37) queue.new }
    ensures out_small { All (λ v. v < 2 ^ 30) out.new }
{
    let flow = Flow { arrivals, go };
    let left = flow.first_turn(queue, out);
    flow.second_turn(left, queue, out);
}

impl Flow<'_> {
    /// Once round the cycle from an empty queue. The answer is the queue left then, that of every later cycle at its last
    /// step.
    #[tactic(auto, using(crate::proofs::QueueLaws::turn_more))]
    fn first_turn(&self, queue: &mut [u64], out: &mut [u64]) -> u64
        requires queue_len { length queue.old ≡ length self.now.arrivals.now }
        requires out_len { length out.old ≡ length self.now.arrivals.now }
        ensures left { result
            ≡ turn self.now.arrivals.now self.now.go.now 0 (length self.now.arrivals.now) }
        ensures small { result ≤ length self.now.arrivals.now * 2 ^ 48 }
        ensures are { AreOfTurn self.now.arrivals.now self.now.go.now 0 queue.new out.new }
    {
        let Flow { arrivals, go } = *self;
        let mut waiting: u64 = 0;
        for i in 0..arrivals.len() {
            let present = waiting + arrivals[i];
            let leaving = present.min(go[i]);
            waiting = present - leaving;
            queue[i] = waiting;
            out[i] = leaving;
        }
        waiting
    }

    /// Round the cycle again, from the queue that was left, up to a step with the queue of the first turn: from there on
    /// the two turns are the same.
    #[tactic(auto, using(crate::proofs::QueueLaws::turn_more))]
    fn second_turn(&self, left: u64, queue: &mut [u64], out: &mut [u64])
        requires small { left ≤ length self.now.arrivals.now * 2 ^ 48 }
        requires first { AreOfTurn self.now.arrivals.now self.now.go.now 0 queue.old out.old }
        ensures { AreOfTurn self.now.arrivals.now self.now.go.now left queue.new out.new }
    {
        if left == 0 {
            return;
        }
        let Flow { arrivals, go } = *self;
        let mut standing = left;
        for i in 0..arrivals.len() {
            let there = standing + arrivals[i];
            standing = there.saturating_sub(go[i]);
            out[i] = there - standing;
            if standing == queue[i] {
                return;
            }
            queue[i] = standing;
        }
    }
}
