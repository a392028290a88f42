//! The lines of a climb and of a certificate, each with its line end.
ghost use Rattle.std.specs.Prelude.{◌≡◌, ◌<◌, ◌≤◌, IsTrue, length};
ghost use Rattle.transyt_audit.specs.Certificate.{move_text, last_text};
ghost use Rattle.transyt_report.specs.Texts.{is_move, took_text, end_text};

use transyt_audit::{put_end, put_move};
use transyt_io::{LineBuffer, set_line};
use transyt_net::Edit;

/// The line becomes that of a step that a climb takes: the place in the list of moves, from 0, the move with its new
/// offset or change in steps, and the index after it.
pub fn took_line(e: &Edit, place: u32, index: u128, line: &mut LineBuffer)
    requires { IsTrue (is_move e.now) }
    ensures text { line.new ≡ took_text place e.now index }
    ensures some { 0 < length line.new }
    ensures room { length line.new ≤ 300 }
{
    let place = u128::from(place);
    match *e {
        Edit::Offset { node, offset } => {
            let numbers = [place, u128::from(node), u128::from(offset), index];
            set_line(b"TOOK # OFFSET # # INDEX #", &numbers, line);
        }
        Edit::Change {
            node,
            stage,
            change,
        } => {
            let numbers = [
                place,
                u128::from(node),
                u128::from(stage),
                u128::from(change),
                index,
            ];
            set_line(b"TOOK # CHANGE # # # INDEX #", &numbers, line);
        }
        _ => unreachable!(),
    }
}

/// The line becomes the last one of a climb: LOCAL where no move of the list lowers the index, BUDGET where the budget
/// ended it, the number of places looked at in this climb, and the index at its end.
pub fn end_line(local: bool, looked: u32, index: u128, line: &mut LineBuffer)
    ensures text { line.new ≡ end_text local looked index }
    ensures some { 0 < length line.new }
    ensures room { length line.new ≤ 300 }
{
    let numbers = [u128::from(looked), index];
    if local {
        set_line(b"LOCAL # INDEX #", &numbers, line);
    } else {
        set_line(b"BUDGET # INDEX #", &numbers, line);
    }
}

/// The line becomes that of a move of a certificate: the place, from 0, the move, and the index with it, or BARRED
/// where it isn't allowed. An edit that is no move, neither of an offset nor of a change, has no words.
pub fn move_line(e: &Edit, place: u32, tried: Option<u128>, line: &mut LineBuffer)
    ensures text { line.new ≡ move_text place e.now tried }
    ensures some { 0 < length line.new }
    ensures room { length line.new ≤ 301 }
{
    put_move(place, e, tried, line);
    line.put(b"\n");
}

/// The line becomes the last one of a certificate: the number of places, and the network's index.
pub fn cert_line(places: u32, index: u128, line: &mut LineBuffer)
    ensures text { line.new ≡ last_text places index }
    ensures some { 0 < length line.new }
    ensures room { length line.new ≤ 301 }
{
    put_end(places, index, line);
    line.put(b"\n");
}
