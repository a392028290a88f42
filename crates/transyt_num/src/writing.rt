//! A number written as text.

ghost use Rattle.std.specs.Prelude.{◌≡◌, ℕ, ◌^◌, ◌<◌, ◌≤◌, take, drop, decimal, Some};
ghost use Rattle.transyt_num.specs.Number.{number_of, IsShortest};

use itoa::Buffer;

/// Writes the shortest decimal text of `v` at the front of `out`, and returns its length, 1 to 39.
///
/// The bytes of `out` after the text stay. The text of a `u64` has at most 20 bytes.
pub fn put_number(v: u128, out: &mut [u8; 39]) -> usize
    ensures text { take result out.new ≡ decimal v }
    ensures shortest { IsShortest v (take result out.new) }
    ensures read_back { v < 1000000000 → number_of (take result out.new) ≡ Some v }
    ensures kept { drop result out.new ≡ drop result out.old }
    ensures some { 1 ≤ result }
    ensures within { result ≤ 39 }
    ensures digits { (k : ℕ) → 0 < k → v < 10 ^ k → result ≤ k }
    ensures short { v < 2 ^ 64 → result ≤ 20 }
{
    let mut buffer = Buffer::new();
    let text = buffer.format(v).as_bytes();
    out[..text.len()].copy_from_slice(text);
    text.len()
}
