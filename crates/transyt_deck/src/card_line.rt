//! The line of a card.
ghost use Rattle.std.specs.Prelude.{◌≡◌, ◌≤◌, ◌+◌, ◌*◌, ◌++◌, ◌∷◌, [], length};
ghost use Rattle.transyt_io.specs.Forms.{values_text};
ghost use Rattle.transyt_io.specs.Prints.{PrintsOn};

use transyt_io::{Failed, LineBuffer, Sink, write_line};

/// Puts a blank and the shortest decimal text of each number after what the line holds.
fn put_list(list: &[u32], line: &mut LineBuffer)
    requires { length line.old + 40 * length list.now ≤ 4000 }
    ensures text { line.new ≡ line.old ++ values_text list.now }
    ensures room { length line.new ≤ length line.old + 40 * length list.now }
{
    for number in list {
        line.put(b" ");
        line.put_value(u128::from(*number));
    }
}

/// Writes the line of a card: its keyword, and a blank and each number after it, those of `list` at the end.
pub(crate) fn print_card<K: Sink>(
    keyword: &[u8],
    numbers: &[u32],
    list: &[u32],
    line: &mut LineBuffer,
    sink: &mut K,
) -> Result<(), Failed>
    requires { length keyword.now + 40 * length numbers.now + 40 * length list.now ≤ 4000 }
    ensures { PrintsOn K.written K.faults sink.old sink.new result
        ((keyword.now ++ values_text (numbers.now ++ list.now)) ++ 10 ∷ []) }
{
    line.clear();
    line.put(keyword);
    put_list(numbers, line);
    put_list(list, line);
    line.put(b"\n");
    write_line(line, sink)
}
