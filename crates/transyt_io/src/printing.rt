//! Lines into a sink.
ghost use Rattle.std.specs.Prelude.{◌≡◌, ◌≤◌, ◌+◌, ◌*◌, length};
ghost use Rattle.transyt_io.specs.Forms.{form_line, values_line};
ghost use Rattle.transyt_io.specs.Prints.{PrintsOn};

use crate::forms::{put_values, set_form, set_line};
use crate::{Failed, LineBuffer, Sink, write_line};

/// Writes the line of a form with its numbers.
#[tactic(auto, unfolding(crate::specs::Forms::form_line))]
pub fn print_form<K: Sink>(
    form: &[u8],
    numbers: &[u128],
    line: &mut LineBuffer,
    sink: &mut K,
) -> Result<(), Failed>
    requires { length form.now + 39 * length numbers.now ≤ 4000 }
    ensures { PrintsOn K.written K.faults sink.old sink.new result
        (form_line form.now numbers.now) }
{
    set_line(form, numbers, line);
    write_line(line, sink)
}

/// Writes the line of a form with its numbers, and a blank and the shortest decimal text of each value after it.
#[tactic(auto, unfolding(crate::specs::Forms::values_line))]
pub fn print_values<K: Sink>(
    form: &[u8],
    numbers: &[u128],
    values: &[u64],
    line: &mut LineBuffer,
    sink: &mut K,
) -> Result<(), Failed>
    requires { length form.now + 39 * length numbers.now + 21 * length values.now ≤ 4000 }
    ensures { PrintsOn K.written K.faults sink.old sink.new result
        (values_line form.now numbers.now values.now) }
{
    set_form(form, numbers, line);
    put_values(values, line);
    line.put(b"\n");
    write_line(line, sink)
}
