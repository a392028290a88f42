//! CERT: the line of a place whose move was tried, and the last line.
ghost use Rattle.std.specs.Prelude.{◌≡◌, ◌<◌};
ghost use Rattle.transyt_moves.specs.Moves.{move, move_count};
ghost use Rattle.transyt_sweep.specs.Sweeps.{index};
ghost use Rattle.transyt_session.specs.Session.{try_of};
ghost use Rattle.transyt_io.specs.Prints.{PrintsOn};
ghost use Rattle.transyt_audit.specs.Certificate.{place_text, last_text};
ghost use Rattle.transyt_line_answers.specs.Conditions.{index_found};

use transyt_climb::move_at;
use transyt_io::{Failed, LineBuffer, Sink, write_line};
use transyt_report::{cert_line, move_line};
use transyt_session::{Session, Tried};

/// The index that a try found, or none where the move is barred.
fn index_of(tried: Tried) -> Option<u128>
    ensures { result ≡ index_found tried }
{
    match tried {
        Tried::Barred => None,
        Tried::Index { index, .. } => Some(index),
    }
}

/// Writes the line of a place, by the try of its move. On Failed some first bytes of it were written. It takes no
/// memory.
pub fn write_cert_place<K: Sink>(
    session: &Session,
    place: u32,
    tried: Tried,
    line: &mut LineBuffer,
    sink: &mut K,
) -> Result<(), Failed>
    requires place { place < move_count session.now.net }
    requires tried { tried ≡ try_of session.now.net (move session.now.net place) }
    ensures { PrintsOn K.written K.faults sink.old sink.new result
        (place_text session.now.net place) }
{
    let edit = move_at(session.net(), place);
    let found = index_of(tried);
    move_line(&edit, place, found, line);
    write_line(line, sink)
}

/// Writes the last line of a certificate of so many places. On Failed some first bytes of it were written. It takes no
/// memory.
pub fn write_cert_end<K: Sink>(
    places: u32,
    session: &Session,
    line: &mut LineBuffer,
    sink: &mut K,
) -> Result<(), Failed>
    ensures { PrintsOn K.written K.faults sink.old sink.new result
        (last_text places (index session.now.net)) }
{
    cert_line(places, session.index(), line);
    write_line(line, sink)
}
