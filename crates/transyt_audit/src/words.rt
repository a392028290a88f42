//! Lines compared word by word.

ghost use Rattle.std.specs.Prelude.{◌≡◌};
ghost use Rattle.transyt_io.specs.Lines.{words};
ghost use Rattle.transyt_audit.specs.Verdict.{same_words, agrees};

use transyt_io::next_word;

/// Whether a line has the words of a true one. A line longer than 4,096 bytes has not.
pub(crate) fn agrees(line: &[u8], truth: &[u8]) -> bool
    ensures { result ≡ agrees line.now truth.now }
{
    line.len() <= 4096 && same_words(line, truth)
}

/// Whether two lines have the same words, in the same order.
fn same_words(line: &[u8], truth: &[u8]) -> bool
    ensures { result ≡ same_words (words line.now) (words truth.now) }
{
    let mut rest = line;
    let mut left = truth;
    while let Some((word, after)) = next_word(rest) {
        let Some((other, later)) = next_word(left) else {
            return false;
        };
        if word != other {
            return false;
        }
        rest = after;
        left = later;
    }
    next_word(left).is_none()
}
