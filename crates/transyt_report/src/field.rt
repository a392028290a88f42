//! Fields of a plot.
ghost use Rattle.std.specs.Prelude.{◌≡◌, ◌≤◌, ◌<◌, ◌+◌, ◌++◌, length};
ghost use Rattle.transyt_report.specs.Plot.{letters, mark, field, three_digits};

use transyt_io::LineBuffer;

/// How many letters stand for a value, of 20 for the scale, rounded down; none where the scale is 0.
pub(crate) fn letters(scale: u64, value: u64) -> u128
    ensures { result ≡ letters scale value }
{
    if scale == 0 {
        0
    } else {
        20 * u128::from(value) / u128::from(scale)
    }
}

/// The character at a place of a field.
fn mark(letter: u8, count: u128, place: u32) -> u8
    ensures { result ≡ mark letter count place }
{
    if u128::from(place) < count {
        letter
    } else {
        b'.'
    }
}

/// Puts a field of 20 characters at the end of the line: so many of the letter, and dots after them.
#[tactic(auto, unfolding(crate::specs::Plot::field))]
pub(crate) fn put_field(letter: u8, count: u128, line: &mut LineBuffer)
    requires { length line.old ≤ 4000 }
    ensures text { line.new ≡ line.old ++ field letter count }
    ensures room { length line.new ≤ length line.old + 20 }
{
    for place in 0..20 {
        line.put(&[mark(letter, count, place)]);
    }
}

/// Puts a step in three digits at the end of the line.
pub(crate) fn put_step(step: u32, line: &mut LineBuffer)
    requires room { length line.old ≤ 4000 }
    requires step { step < 1000 }
    ensures { line.new ≡ line.old ++ three_digits step }
{
    let digits = [
        b'0' + (step / 100) as u8,
        b'0' + (step / 10 % 10) as u8,
        b'0' + (step % 10) as u8,
    ];
    line.put(&digits);
}
