//! How many bytes a tracker takes.

use crate::own::Places;
use std::mem::size_of;
use transyt_delay::Figures;
use transyt_kept::Rows;
use transyt_sweep::{FACTOR_BYTES, Scratch};

// the limits of a network
const LINKS: usize = 1000;

const FEEDS: usize = 8;

const STEPS: usize = 120;

const SWEEPS: usize = 8;

// pairs of a sweep and a link, from sweep 0 on
const PAIRS: usize = (SWEEPS + 1) * LINKS;
// a value for each step
const PROFILE: usize = STEPS * size_of::<u64>();
// the departures of each link at each sweep, and the arrivals, green, queue and figures of each at the last
const VERSION: usize = PAIRS * PROFILE + LINKS * (3 * PROFILE + size_of::<Figures>());
// the two versions of all rows, and two bits for each row that tell which is which
const ROWS: usize = 2 * VERSION + 2 * (PAIRS + 4 * LINKS) * size_of::<bool>();
// the places of each link's node, of its feeders and of the link to which it gives way
const PLACES: usize = LINKS * (size_of::<Places>() + (FEEDS + 1) * size_of::<usize>());
// two flags for each link, the room for one link's work, and the numbers worked out last for each feed
const ROOM: usize = 2 * LINKS * size_of::<bool>() + 13 * PROFILE + LINKS * FACTOR_BYTES;

/// The most bytes that a tracker takes beside its two networks, at the limits of a network: 1,000 links of eight feeds,
/// 120 steps and eight sweeps. It is below 24.2 million.
pub const MOST_BYTES: usize = size_of::<Rows>() + size_of::<Scratch>() + ROWS + PLACES + ROOM;

const _: () = prove!(MOST_BYTES <= 24_200_000);

const _: () = prove!(MOST_BYTES > 24_100_000);
