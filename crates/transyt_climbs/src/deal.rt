//! The places of a batch dealt to workers, a turn at a time.

ghost use Rattle.std.specs.Prelude.{◌<◌, ◌≤◌, ◌*◌, ◌+◌};

/// Places dealt to workers from the last place on: in each turn every worker gets one, in even turns from the first
/// worker to the last and in odd turns back. So each gets as many, and alike where places take longer and longer.
///
/// The places of a worker stand in slots side by side, in the order of the turns. The last turn may leave some empty.
#[derive(Clone, Copy, Drop)]
pub(crate) struct Deal {
    /// How many places there are.
    pub(crate) count: usize,
    /// How many workers there are.
    pub(crate) workers: usize,
    /// How many turns there are, and so slots of each worker.
    pub(crate) turns: usize,
    ghost some: { 0 < workers },
    ghost few: { workers ≤ 8 },
    ghost count_most: { count ≤ 1000 },
    ghost enough: { count ≤ turns * workers },
    ghost least_turns: { turns * workers < count + workers },
}
