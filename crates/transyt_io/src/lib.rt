//! Sources and sinks of bytes, the lines and words of what a source gives, and texts line by line into a sink.
//!
//! A contract sees a source by the bytes left, the size of the last piece and the count of faults (`left`, `last`,
//! `faults`), and a sink by the bytes written and the count of faults (`written`, `faults`); all but the counts are an
//! `Option`, since not every end tells them. `specs/Streams` has the words for what a call did to them: cite `Takes`,
//! `Adds`, `AddsFront`, `Rose` and `CountsFault` first. `specs/Lines` says what the lines of a list of bytes are
//! (`lines`, `whole`), which are skipped (`is_skipped`) and what the words of a line are (`words`). `specs/Reading`
//! ties a `LineReader` to all bytes taken and all lines handed out: `HasRead` before and after a call of `next`,
//! `ReadsLine` for the call. `TakesAll` of `specs/Streams` is the effect of taking a whole input on its source, and
//! `StdEnd` there an end of std by its bytes told and its count. The lemmas on these words stand in `proofs/Told`,
//! `proofs/Lines`, `proofs/SpacedWords` and `proofs/Reading`.
//!
//! An end of std keeps, for the proofs alone, the reader or writer as it was at first: std lets an end that told nothing
//! at first tell something later, and `Takes` and `Adds` don't. A reader keeps a block of 8,192 bytes and the first 4,098
//! bytes of a line, which are enough for the line that it hands out. All memory is taken in `open` and `new`.
//!
//! A **form** is a line as it is documented, with `#` for each number: `LINK # UNIFORM # RANDOM # STOPS # INDEX #`.
//! [`put_form`] puts it into a `LineBuffer` with its numbers, [`put_values`] puts values after it, and [`print_form`]
//! and [`print_values`] write such a line. A contract sees the line as `filled form numbers`, and a call that writes a
//! text by one clause, `Prints`: where it was written whole, where a front of it, and what became of the sink's count
//! of faults. Cite `specs/Forms` for texts, `specs/Prints` for sinks, and the laws of `proofs/PrintLaws` to join texts
//! one after another. A text with a line for each link or node is [`Parts`], and [`print_parts`] writes it. Everything
//! here is this project's own.
#![tactic(auto)]

mod block;
mod calls;
mod cut;
mod forms;
mod gather;
mod intake;
mod laws;
mod line_buffer;
mod memory_sink;
mod memory_source;
mod parts;
mod printing;
mod reader;
mod std_ends;
mod steady_source;
mod streams;
mod tally_sink;
#[cfg(test)]
mod tests;
mod text_laws;
mod words;

pub use cut::next_line;
pub use forms::{put_form, put_values, set_line};
pub use intake::Intake;
pub use laws::{
    counts_rise, worked_calls, worked_ends, worked_intake, worked_lines, worked_reading,
};
pub use line_buffer::{LineBuffer, write_line};
pub use memory_sink::MemorySink;
pub use memory_source::MemorySource;
pub use parts::{Parts, print_parts};
pub use printing::{print_form, print_values};
pub use reader::{Line, LineReader, ReadStop};
pub use std_ends::{StdSink, StdSource};
pub use steady_source::SteadySource;
pub use streams::{Failed, Sink, Source};
pub use tally_sink::TallySink;
pub use text_laws::worked_forms;
pub use words::{is_blank, is_skipped, next_word};
