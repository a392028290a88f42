//! The keyword of a line, and the words after it.
ghost use Rattle.std.specs.Prelude.{◌≡◌, ◌≤◌, length, take, MatchOption, IfSome};
ghost use Rattle.std.specs.Str.{bytes_eq};
ghost use Rattle.transyt_io.specs.Lines.{words};
ghost use Rattle.transyt_syntax.specs.Syntax.{first_word, further_words, all_numbers};

use transyt_io::next_word;
use transyt_num::read_number;

/// The keyword of a line and the bytes after it, which have the further words. Both are empty where the
/// line has no word.
pub(crate) fn first_of(line: &[u8]) -> (&[u8], &[u8])
    ensures first { result.0.now ≡ first_word (words line.now) }
    ensures further { words result.1.now ≡ further_words (words line.now) }
{
    match next_word(line) {
        Some((word, rest)) => (word, rest),
        None => (b"", b""),
    }
}

/// Whether a word is this one, byte for byte.
pub fn is_word(word: &[u8], other: &[u8]) -> bool
    ensures { result ≡ bytes_eq word.now other.now }
{
    word == other
}

/// How many words a line has: its longest runs of bytes that are neither blank nor tab.
pub(crate) fn word_count(line: &[u8]) -> usize
    ensures { result ≡ length (words line.now) }
{
    let mut count = 0;
    let mut rest = line;
    while let Some((_word, after)) = next_word(rest) {
        count += 1;
        rest = after;
    }
    count
}

/// The first word of a line that is no number; empty where all are numbers.
pub(crate) fn odd_word(line: &[u8]) -> &[u8] {
    let mut rest = line;
    while let Some((word, after)) = next_word(rest) {
        if read_number(word).is_none() {
            return word;
        }
        rest = after;
    }
    b""
}

/// Reads the words of a line as numbers, in order, into the front of `out`, and answers how many; `None`
/// where a word is no number, and `out` is then unspecified.
pub(crate) fn read_numbers(line: &[u8], out: &mut [u32; 17]) -> Option<usize>
    requires { length (words line.now) ≤ 17 }
    ensures numbers { MatchOption result (all_numbers (words line.now) ≡ None)
        (λ n. all_numbers (words line.now) ≡ Some (take n out.new)) }
    ensures count { IfSome result (λ n. n ≡ length (words line.now)) }
    ensures most { IfSome result (λ n. n ≤ 17) }
{
    let mut count = 0;
    let mut rest = line;
    while let Some((word, after)) = next_word(rest) {
        let Some(n) = read_number(word) else {
            return None;
        };
        out[count] = n;
        count += 1;
        rest = after;
    }
    Some(count)
}
