//! The reports.
ghost use Rattle.std.specs.Prelude.{◌≡◌, ◌<◌, length};
ghost use Rattle.transyt_io.specs.Prints.{PrintsOn};
ghost use Rattle.transyt_sweep.specs.Sweeps.{index};
ghost use Rattle.transyt_report.specs.Texts.{index_line, link_line, links_text, in_line, go_line, out_line, queue_line};
ghost use Rattle.transyt_report.specs.Texts.{profile_text, work_line, report_text, IsOfPlace};

use crate::charting::print_chart;
use crate::figures::print_report;
use crate::session_link::SessionLink;
use crate::timing::print_timing;
use transyt_io::{Failed, LineBuffer, Parts, Sink, print_form, print_parts, print_values};
use transyt_session::Session;

/// A report of the session. A link is named by its place in card order, from 0.
#[derive(Clone, Copy, PartialEq, Eq)]
pub enum Report {
    /// The index of the network.
    Index,
    /// The figures of each link, and the index of the network.
    Links,
    /// The figures of each link and of the network in the units of an engineer.
    Figures,
    /// The plans of the nodes.
    Timing,
    /// Arrivals, GO and departures of a link, step by step.
    Profile { link: usize },
    /// The queue at the end of each step.
    Queue { link: usize },
    /// The cycle of all links, a character for each step.
    Chart,
    /// The work so far.
    Work,
}

/// Writes the line of the network's index.
#[tactic(auto, unfolding(crate::specs::Texts::index_line))]
fn print_index<K: Sink>(
    session: &Session,
    line: &mut LineBuffer,
    sink: &mut K,
) -> Result<(), Failed>
    ensures { PrintsOn K.written K.faults sink.old sink.new result
        (index_line (index session.now.net)) }
{
    print_form(b"INDEX #", &[session.index()], line, sink)
}

/// The lines of the links in LINKS.
#[derive(Clone, Copy)]
struct LinkLines<'a> {
    session: &'a Session,
}

impl Parts for LinkLines<'_> {
    ghost number = { λ self. length self.session.now.net.links };

    ghost text = { λ self. link_line self.session.now.net };

    fn count(&self) -> usize {
        let net = self.session.net();
        net.links().len()
    }

    #[tactic(auto, unfolding(crate::specs::Texts::figures_line))]
    fn print<K: Sink>(
        &self,
        place: usize,
        line: &mut LineBuffer,
        sink: &mut K,
    ) -> Result<(), Failed> {
        let session = self.session;
        let link = SessionLink { session, place };
        let figures = session.figures(place);
        let numbers = [
            u128::from(link.number()),
            u128::from(figures.uniform),
            u128::from(figures.random),
            u128::from(figures.stops),
            figures.index,
        ];
        let form = b"LINK # UNIFORM # RANDOM # STOPS # INDEX #";
        print_form(form, &numbers, line, sink)
    }
}

/// Writes LINKS.
#[tactic(auto, using(transyt_io::proofs::PrintLaws::prints_front))]
fn print_links<K: Sink>(
    session: &Session,
    line: &mut LineBuffer,
    sink: &mut K,
) -> Result<(), Failed>
    ensures { PrintsOn K.written K.faults sink.old sink.new result (links_text session.now.net) }
{
    print_parts(&LinkLines { session }, line, sink)?;
    print_index(session, line, sink)
}

/// Writes the arrivals of a link.
#[tactic(auto, unfolding(crate::specs::Texts::in_line))]
fn print_in<K: Sink>(link: &SessionLink, line: &mut LineBuffer, sink: &mut K) -> Result<(), Failed>
    ensures { PrintsOn K.written K.faults sink.old sink.new result
        (in_line link.now.session.now.net link.now.place) }
{
    let number = [u128::from(link.number())];
    print_values(b"IN #", &number, link.arrivals(), line, sink)
}

/// Writes the GO of a link.
#[tactic(auto, unfolding(crate::specs::Texts::go_line))]
fn print_go<K: Sink>(link: &SessionLink, line: &mut LineBuffer, sink: &mut K) -> Result<(), Failed>
    ensures { PrintsOn K.written K.faults sink.old sink.new result
        (go_line link.now.session.now.net link.now.place) }
{
    let number = [u128::from(link.number())];
    print_values(b"GO #", &number, link.go(), line, sink)
}

/// Writes the departures of a link.
#[tactic(auto, unfolding(crate::specs::Texts::out_line))]
fn print_out<K: Sink>(link: &SessionLink, line: &mut LineBuffer, sink: &mut K) -> Result<(), Failed>
    ensures { PrintsOn K.written K.faults sink.old sink.new result
        (out_line link.now.session.now.net link.now.place) }
{
    let number = [u128::from(link.number())];
    print_values(b"OUT #", &number, link.out(), line, sink)
}

/// Writes QUEUE.
#[tactic(auto, unfolding(crate::specs::Texts::queue_line))]
fn print_queue<K: Sink>(
    link: &SessionLink,
    line: &mut LineBuffer,
    sink: &mut K,
) -> Result<(), Failed>
    ensures { PrintsOn K.written K.faults sink.old sink.new result
        (queue_line link.now.session.now.net link.now.place) }
{
    let number = [u128::from(link.number())];
    print_values(b"QUEUE #", &number, link.queue(), line, sink)
}

/// Writes PROFILE.
fn print_profile<K: Sink>(
    link: &SessionLink,
    line: &mut LineBuffer,
    sink: &mut K,
) -> Result<(), Failed>
    ensures { PrintsOn K.written K.faults sink.old sink.new result
        (profile_text link.now.session.now.net link.now.place) }
{
    print_in(link, line, sink)?;
    print_go(link, line, sink)?;
    print_out(link, line, sink)
}

/// Writes WORK.
#[tactic(auto, unfolding(crate::specs::Texts::work_line))]
fn print_work<K: Sink>(session: &Session, line: &mut LineBuffer, sink: &mut K) -> Result<(), Failed>
    ensures { PrintsOn K.written K.faults sink.old sink.new result (work_line session.now.work) }
{
    print_form(b"WORK #", &[u128::from(session.work())], line, sink)
}

/// Appends the text of a report of the network now, each line handed to `write` in one piece. Values of profiles and
/// queues are in millionths of a vehicle, one for each step of the cycle from step 0.
///
/// Failed comes only where the sink's count rose; a front of the text was appended then. What `line` held before is
/// lost, and what it holds afterwards is unspecified. The texts are this project's own.
pub fn show<K: Sink>(
    what: Report,
    session: &Session,
    line: &mut LineBuffer,
    sink: &mut K,
) -> Result<(), Failed>
    requires { IsOfPlace session.now.net what }
    ensures { PrintsOn K.written K.faults sink.old sink.new result
        (report_text session.now.net session.now.work what) }
{
    match what {
        Report::Index => print_index(session, line, sink),
        Report::Links => print_links(session, line, sink),
        Report::Figures => print_report(session, line, sink),
        Report::Timing => print_timing(session, line, sink),
        Report::Profile { link: place } => print_profile(
            &SessionLink { session, place },
            line,
            sink,
        ),
        Report::Queue { link: place } => print_queue(&SessionLink { session, place }, line, sink),
        Report::Chart => print_chart(session, line, sink),
        Report::Work => print_work(session, line, sink),
    }
}
