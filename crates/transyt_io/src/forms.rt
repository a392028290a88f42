//! Lines of a fixed form.
ghost use Rattle.std.specs.Prelude.{◌≡◌, ◌≤◌, ◌+◌, ◌*◌, ◌++◌, ◌<◌, length, drop};
ghost use Rattle.transyt_io.specs.Forms.{filled, piece, numbers_after, values_text, form_line};

use crate::LineBuffer;

/// Puts what stands for one byte of a form, and returns how many of the numbers are used up after it.
fn put_piece(byte: u8, numbers: &[u128], used: usize, line: &mut LineBuffer) -> usize
    requires fits { length line.old + 39 ≤ 4096 }
    requires used { used ≤ length numbers.now }
    ensures text { line.new ≡ line.old ++ piece byte (drop used numbers.now) }
    ensures left { drop result numbers.now ≡ numbers_after byte (drop used numbers.now) }
    ensures used { result ≤ length numbers.now }
    ensures room { length line.new + 39 * used ≤ length line.old + 1 + 39 * result }
{
    if byte != b'#' {
        line.put(&[byte]);
        return used;
    }
    if used == numbers.len() {
        return used;
    }
    line.put_value(numbers[used]);
    used + 1
}

/// Puts a form at the end, with a number in shortest decimal text in place of each `#`. Where there are too few
/// numbers, nothing stands in place of the last of them.
pub fn put_form(form: &[u8], numbers: &[u128], line: &mut LineBuffer)
    requires { length line.old + length form.now + 39 * length numbers.now ≤ 4000 }
    ensures text { line.new ≡ line.old ++ filled form.now numbers.now }
    ensures room { length line.new ≤ length line.old + length form.now + 39 * length numbers.now }
{
    let mut used = 0;
    for byte in form {
        used = put_piece(*byte, numbers, used, line);
    }
}

/// The line becomes the form with its numbers.
pub(crate) fn set_form(form: &[u8], numbers: &[u128], line: &mut LineBuffer)
    requires { length form.now + 39 * length numbers.now ≤ 4000 }
    ensures text { line.new ≡ filled form.now numbers.now }
    ensures room { length line.new ≤ length form.now + 39 * length numbers.now }
{
    line.clear();
    put_form(form, numbers, line);
}

/// The line becomes that of the form with its numbers, its line end with it. What it held before is lost.
#[tactic(auto, unfolding(crate::specs::Forms::form_line))]
pub fn set_line(form: &[u8], numbers: &[u128], line: &mut LineBuffer)
    requires { length form.now + 39 * length numbers.now ≤ 4000 }
    ensures text { line.new ≡ form_line form.now numbers.now }
    ensures some { 0 < length line.new }
    ensures room { length line.new ≤ length form.now + 39 * length numbers.now + 1 }
{
    set_form(form, numbers, line);
    line.put(b"\n");
}

/// Puts a blank and the shortest decimal text of each value at the end.
pub fn put_values(values: &[u64], line: &mut LineBuffer)
    requires { length line.old + 21 * length values.now ≤ 4000 }
    ensures text { line.new ≡ line.old ++ values_text values.now }
    ensures room { length line.new ≤ length line.old + 21 * length values.now }
{
    for value in values {
        line.put(b" ");
        line.put_value(u128::from(*value));
    }
}
