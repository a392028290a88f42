//! Who tries moves, and who writes the answers.
ghost use Rattle.std.specs.Prelude.{◌≡◌, ◌≤◌, IfOk};

use std::alloc::{AllocError, Global};
use transyt_io::LineBuffer;
use transyt_line_answers::Answer;

/// One to eight workers, who try moves at once: how many, the runtime that starts them, and the gate that they pass.
#[derive(Drop)]
pub struct Workers<'a, R, G> {
    /// The runtime that starts them.
    pub rt: &'a R,
    /// The gate that each passes with the moves that it tries.
    pub gate: &'a G,
    /// How many they are.
    pub count: u32,
    ghost some: { 1 ≤ count },
    ghost most: { count ≤ 8 },
}

/// Carries out commands and writes their answers: the workers, the line that is written, the number of the line that is
/// answered, and how many commands were refused.
#[derive(Drop)]
pub(crate) struct AnswerWriter<'a, R, G> {
    pub(crate) workers: Workers<'a, R, G>,
    pub(crate) line: LineBuffer,
    pub(crate) number: u32,
    pub(crate) refused: u32,
}

impl<'a, R, G> AnswerWriter<'a, R, G> {
    /// Nothing is answered yet. The memory for writing is taken here.
    pub(crate) fn open(
        alloc: Global,
        workers: Workers<'a, R, G>,
    ) -> Result<AnswerWriter<'a, R, G>, AllocError>
        ensures { IfOk result (λ writer. writer.workers.count ≡ workers.entry.count) }
    {
        let line = LineBuffer::open(alloc)?;
        Ok(AnswerWriter {
            workers,
            line,
            number: 0,
            refused: 0,
        })
    }

    /// Counts an answer that is a refusal.
    pub(crate) fn count(&mut self, answer: &Answer)
        ensures { self.new.workers.count ≡ self.old.workers.count }
    {
        if let Answer::Refused(_) = answer {
            self.refused = self.refused.saturating_add(1);
        }
    }
}
