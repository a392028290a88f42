//! The vehicles that stop.

ghost use Rattle.std.specs.Prelude.{◌≡◌, ◌^◌, ◌<◌, ◌≤◌, length, nat_lt, if◌then◌else◌, All};
ghost use Rattle.transyt_profile.specs.StopLine.{stopped_of};

/// The stopped arrivals of a cycle: those of each step that ends with a queue.
///
/// Both slices have one value for each step of the cycle, in millionths of a vehicle: `queue` is that at the
/// step's end. The result is in the same unit, exact. This count of stops is this project's own.
pub fn stopped(arrivals: &[u64], queue: &[u64]) -> u64
    requires most { length arrivals.now ≤ 120 }
    requires queue_len { length queue.now ≡ length arrivals.now }
    requires fit { All (λ v. v < 2 ^ 48) arrivals.now }
    ensures value { result ≡ stopped_of arrivals.now queue.now }
    ensures small { result < 2 ^ 55 }
{
    let mut all: u64 = 0;
    for i in 0..arrivals.len() {
        all += stopping(arrivals[i], queue[i]);
    }
    all
}

/// The stopped arrivals of one step: all of them where a queue stands at the step's end.
fn stopping(arrival: u64, queue: u64) -> u64
    ensures value { result ≡ (if nat_lt 0 queue then arrival else 0) }
    ensures part { result ≤ arrival }
{
    if queue > 0 { arrival } else { 0 }
}
