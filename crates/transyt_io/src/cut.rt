//! The next line of bytes that are all there.
ghost use Rattle.std.specs.Prelude.{◌≡◌, ◌<◌, ◌∷◌, [], true, length, MatchOption, IfSome};
ghost use Rattle.transyt_io.specs.Lines.{after_first_line, cut, lines};

use crate::gather::line_length;
use memchr::memchr;

/// The first line of `bytes`, and the bytes after its line end; None where there are no bytes.
///
/// The line is without one carriage return at its end. Of a line longer than 4,096 bytes it is the first 4,097.
pub fn next_line(bytes: &[u8]) -> Option<(&[u8], &[u8])>
    ensures line { MatchOption result (bytes.now ≡ [])
        (λ found. lines bytes.now ≡ found.0.now ∷ lines found.1.now) }
    ensures less { IfSome result (λ found. length found.1.now < length bytes.now) }
    ensures rest { IfSome result (λ found. found.1.now ≡ after_first_line bytes.now) }
{
    if bytes.is_empty() {
        return None;
    }
    let (raw, rest) = split_line(bytes);
    Some((&raw[..line_length(raw)], rest))
}

/// The bytes before the first line end, and those after it.
fn split_line(bytes: &[u8]) -> (&[u8], &[u8])
    requires { 0 < length bytes.now }
    ensures cut { cut true bytes.now ≡ result.0.now ∷ cut true result.1.now }
    ensures less { length result.1.now < length bytes.now }
    ensures rest { result.1.now ≡ after_first_line bytes.now }
{
    match memchr(b'\n', bytes) {
        Some(at) => (&bytes[..at], &bytes[at + 1..]),
        None => (bytes, &bytes[bytes.len()..]),
    }
}
