//! The lines of a certificate.

ghost use Rattle.std.specs.Prelude.{◌≡◌, ℕ, ◌+◌, ◌≤◌, ◌++◌, ◌∷◌, [], length, codes, decimal, Some};
ghost use Rattle.transyt_audit.specs.Certificate.{spaced, joined, new_line, edit_words, tried_words, move_words};
ghost use Rattle.transyt_audit.specs.Certificate.{end_words};

use transyt_io::{LineBuffer, put_form};
use transyt_net::Edit;

/// Puts the line of a place into `line`, without its line end: the place, the move, and the index with it, or BARRED
/// where there is none.
///
/// The bytes that the line held before are lost. An edit that is no move, neither of an offset nor of a change, has no
/// words.
pub fn put_move(place: u32, e: &Edit, tried: Option<u128>, line: &mut LineBuffer)
    ensures text { line.new ≡ joined (move_words (new_line place e.now tried)) }
    ensures room { length line.new ≤ 300 }
{
    line.clear();
    put_edit(place, e, line);
    put_tried(tried, line);
}

/// Puts the last line of a certificate into `line`, without its line end: the number of places and the network's index.
/// The bytes that the line held before are lost.
#[tactic(auto, unfolding(transyt_io::specs::Forms::filled))]
pub fn put_end(count: u32, index: u128, line: &mut LineBuffer)
    ensures text { line.new ≡ joined (end_words count index) }
    ensures room { length line.new ≤ 300 }
{
    line.clear();
    put_form(b"CERT # INDEX #", &[u128::from(count), index], line);
}

/// Puts the place and the words of a move after what the line holds.
#[tactic(auto, unfolding(transyt_io::specs::Forms::filled))]
fn put_edit(place: u32, e: &Edit, line: &mut LineBuffer)
    requires { length line.old ≤ 100 }
    ensures text { line.new ≡ line.old ++ joined (codes "MOVE" ∷ decimal place ∷ edit_words e.now) }
    ensures room { length line.new ≤ length line.old + 190 }
{
    let place = u128::from(place);
    match *e {
        Edit::Offset { node, offset } => {
            let numbers = [place, u128::from(node), u128::from(offset)];
            put_form(b"MOVE # OFFSET # #", &numbers, line);
        }
        Edit::Change {
            node,
            stage,
            change,
        } => {
            let numbers = [
                place,
                u128::from(node),
                u128::from(stage),
                u128::from(change),
            ];
            put_form(b"MOVE # CHANGE # # #", &numbers, line);
        }
        Edit::Entry { .. }
        | Edit::Part { .. }
        | Edit::Cruise { .. }
        | Edit::Saturation { .. }
        | Edit::Weight { .. } => put_form(b"MOVE #", &[place], line),
    }
}

/// Puts an index after what the line holds, or BARRED where there is none.
#[tactic(auto, unfolding(transyt_io::specs::Forms::filled))]
fn put_tried(tried: Option<u128>, line: &mut LineBuffer)
    requires { length line.old ≤ 1000 }
    ensures text { line.new ≡ line.old ++ spaced (tried_words tried) }
    ensures room { length line.new ≤ length line.old + 50 }
{
    match tried {
        Some(index) => put_form(b" INDEX #", &[index], line),
        None => line.put(b" BARRED"),
    }
}
