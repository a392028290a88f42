//! The lines of an answer, and the writing of them.

ghost use Rattle.std.specs.Prelude.{◌≡◌, ◌≤◌, ◌++◌, [], ◌∷◌, length, IfOk, OnOk};
ghost use Rattle.transyt_io.specs.Prints.{PrintsOn};
ghost use Rattle.transyt_words.specs.Answer.{line_of, line_text, lines_text, refused_card};

use std::alloc::{AllocError, Global};
use std::marker::Model;
use transyt_io::{Failed, LineBuffer, Sink, print_form};
use transyt_syntax::Code;

/// How many numbers a line has at most.
const MOST_NUMBERS: usize = 5;

/// A line of an answer: its form, as it is documented, with `#` for each number, and the numbers in their order.
#[derive(Drop)]
pub struct AnswerLine {
    form: &'static [u8],
    numbers: [u128; MOST_NUMBERS],
    count: usize,
}

impl Model for AnswerLine {
    ghost use Rattle.std.specs.Prelude.{◌≤◌, length, take};
    ghost use Rattle.transyt_words.specs.Answer.{LineValue};

    ghost Value = { LineValue };

    ghost view = { λ line. record { form = line.form.now; numbers = take line.count line.numbers } };

    ghost invariant = { λ line. (line.count ≤ 5) × (length line.form.now ≤ 100) };
}

impl AnswerLine {
    /// The line of a form with its numbers.
    pub fn new(form: &'static [u8], numbers: &[u128]) -> AnswerLine
        requires form { length form.now ≤ 100 }
        requires numbers { length numbers.now ≤ 5 }
        ensures { result ≡ line_of form.now numbers.now }
    {
        let mut kept = [0; MOST_NUMBERS];
        let count = numbers.len();
        kept[..count].copy_from_slice(numbers);
        AnswerLine {
            form,
            numbers: kept,
            count,
        }
    }

    /// The line of a refused card: the number of its line, and the code.
    pub(crate) fn refused_card(card: u32, code: Code) -> AnswerLine
        ensures { result ≡ refused_card card code }
    {
        AnswerLine::new(
            b"CARD # REFUSED #",
            &[u128::from(card), u128::from(code.number())],
        )
    }

    /// Writes the line.
    fn print<K: Sink>(&self, line: &mut LineBuffer, sink: &mut K) -> Result<(), Failed>
        ensures { PrintsOn K.written K.faults sink.old sink.new result (line_text self.now) }
    {
        print_form(self.form, &self.numbers[..self.count], line, sink)
    }
}

/// Adds a line.
pub(crate) fn add(lines: &mut Vec<AnswerLine>, line: AnswerLine) -> Result<(), AllocError>
    ensures { OnOk result (lines.new.items ≡ lines.old.items ++ line ∷ []) }
{
    if lines.push(line).is_err() {
        return Err(AllocError);
    }
    Ok(())
}

/// One line.
pub(crate) fn one(alloc: Global, line: AnswerLine) -> Result<Vec<AnswerLine>, AllocError>
    ensures { IfOk result (λ lines. lines.items ≡ line ∷ []) }
{
    let mut lines = Vec::new(alloc);
    add(&mut lines, line)?;
    Ok(lines)
}

/// Writes all lines, each in one piece where the sink takes it.
pub(crate) fn print_lines<K: Sink>(
    lines: &[AnswerLine],
    line: &mut LineBuffer,
    sink: &mut K,
) -> Result<(), Failed>
    ensures { PrintsOn K.written K.faults sink.old sink.new result (lines_text lines.now) }
{
    for said in lines {
        said.print(line, sink)?;
    }
    Ok(())
}
