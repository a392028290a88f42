//! The words of a line, and the lines that are skipped.
ghost use Rattle.std.specs.Prelude.{◌≡◌, ◌<◌, ◌∷◌, [], false, length, slice_index, MatchOption, IfSome};
ghost use Rattle.std.specs.List.{list_all};
ghost use Rattle.transyt_io.specs.Lines.{is_blank, is_comment, is_skipped, words};

/// Whether a byte parts words: a blank or a tab.
pub fn is_blank(byte: u8) -> bool
    ensures { result ≡ is_blank byte }
{
    byte == b' ' || byte == b'\t'
}

/// The first word of a line, and the bytes after it; None where the line has no word.
pub fn next_word(line: &[u8]) -> Option<(&[u8], &[u8])>
    ensures word { MatchOption result (words line.now ≡ [])
        (λ found. words line.now ≡ found.0.now ∷ words found.1.now) }
    ensures less { IfSome result (λ found. length found.1.now < length line.now) }
{
    let mut rest = line;
    while let [first, after @ ..] = rest {
        if !is_blank(*first) {
            return Some(first_word(rest));
        }
        rest = after;
    }
    None
}

/// The word that `rest` begins with, and the bytes after it.
fn first_word(rest: &[u8]) -> (&[u8], &[u8])
    requires some { 0 < length rest.now }
    requires begins { is_blank (slice_index rest.now 0) ≡ false }
    ensures words { words rest.now ≡ result.0.now ∷ words result.1.now }
    ensures less { length result.1.now < length rest.now }
{
    for (i, b) in rest.iter().enumerate() {
        if is_blank(*b) {
            return (&rest[..i], &rest[i..]);
        }
    }
    (rest, &rest[rest.len()..])
}

/// Whether a line is skipped: a comment, or blanks and tabs alone. A line longer than 4,096 bytes is not.
pub fn is_skipped(line: &[u8]) -> bool
    ensures { result ≡ is_skipped line.now }
{
    line.len() <= 4096 && (is_comment(line) || is_blank_alone(line))
}

/// Whether a line begins with a star.
fn is_comment(line: &[u8]) -> bool
    ensures { result ≡ is_comment line.now }
{
    !line.is_empty() && line[0] == b'*'
}

/// Whether a line has blanks and tabs alone, or nothing.
fn is_blank_alone(line: &[u8]) -> bool
    ensures { result ≡ list_all is_blank line.now }
{
    line.iter().all(|b| is_blank(*b))
}
