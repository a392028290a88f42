//! A gate that each desk passes with the moves that it tries.

ghost use Rattle.std.specs.Prelude.{◌≤◌};

/// A gate is told when a desk begins to try its moves of a round, and when it has tried them. Desks are numbered from 0.
///
/// Several desks may be inside at once, so a gate is shared among threads. A clause names nothing of it.
pub trait Gate: Sync {
    /// The desk begins.
    fn enter(&self, desk: u32);

    /// The desk has tried its moves.
    fn leave(&self, desk: u32);

    /// How many desks may be inside at once, one to eight: who opens desks for this gate opens no more. It is eight where
    /// the gate says nothing else.
    fn most(&self) -> u32
        ensures some { 1 ≤ result }
        ensures few { result ≤ 8 }
    {
        8
    }
}

/// A gate that does nothing.
#[derive(Clone, Copy, PartialEq, Eq)]
pub struct OpenGate;

impl Gate for OpenGate {
    fn enter(&self, _desk: u32) {}

    fn leave(&self, _desk: u32) {}
}
