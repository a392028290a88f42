//! CHART.
ghost use Rattle.std.specs.Prelude.{◌≡◌, ◌≤◌, ◌<◌, ◌+◌, ◌++◌, length};
ghost use Rattle.transyt_io.specs.Prints.{PrintsOn};
ghost use Rattle.transyt_report.specs.Chart.{step_mark, cycle_marks, chart_line_at, chart_text};

use crate::session_link::SessionLink;
use transyt_io::{Failed, LineBuffer, Parts, Sink, print_form, print_parts, put_form, write_line};
use transyt_session::Session;

/// The character of a step, by its GO and the queue at its end: a queue that goes, a green without a queue, a queue
/// that stands, or neither.
fn step_mark(go: u64, queue: u64) -> u8
    ensures { result ≡ step_mark go queue }
{
    match (go > 0, queue > 0) {
        (true, true) => b'Q',
        (true, false) => b'G',
        (false, true) => b'q',
        (false, false) => b'.',
    }
}

/// Puts the characters of a cycle at the end of the line.
fn put_cycle(go: &[u64], queue: &[u64], line: &mut LineBuffer)
    requires room { length line.old ≤ 1000 }
    requires few { length go.now ≤ 120 }
    requires queue { length queue.now ≡ length go.now }
    ensures text { line.new ≡ line.old ++ cycle_marks go.now queue.now }
    ensures room { length line.new ≤ length line.old + 120 }
{
    for step in 0..go.len() {
        line.put(&[step_mark(go[step], queue[step])]);
    }
}

/// The line becomes that of a link.
#[tactic(auto, unfolding(crate::specs::Chart::chart_line))]
fn set_link(link: &SessionLink, line: &mut LineBuffer)
    ensures text { line.new ≡ chart_line_at link.now.session.now.net link.now.place }
    ensures some { 0 < length line.new }
{
    line.clear();
    put_form(b"CHART # ", &[u128::from(link.number())], line);
    put_cycle(link.go(), link.queue(), line);
    line.put(b"\n");
}

/// The lines of the links in CHART.
#[derive(Clone, Copy)]
struct ChartLines<'a> {
    session: &'a Session,
}

impl Parts for ChartLines<'_> {
    ghost number = { λ self. length self.session.now.net.links };

    ghost text = { λ self. chart_line_at self.session.now.net };

    fn count(&self) -> usize {
        let net = self.session.net();
        net.links().len()
    }

    fn print<K: Sink>(
        &self,
        place: usize,
        line: &mut LineBuffer,
        sink: &mut K,
    ) -> Result<(), Failed> {
        let session = self.session;
        let link = SessionLink { session, place };
        set_link(&link, line);
        write_line(line, sink)
    }
}

/// Writes CHART.
#[tactic(auto, using(transyt_io::proofs::PrintLaws::prints_front))]
pub(crate) fn print_chart<K: Sink>(
    session: &Session,
    line: &mut LineBuffer,
    sink: &mut K,
) -> Result<(), Failed>
    ensures { PrintsOn K.written K.faults sink.old sink.new result (chart_text session.now.net) }
{
    print_parts(&ChartLines { session }, line, sink)?;
    print_form(b"END CHART", &[], line, sink)
}
