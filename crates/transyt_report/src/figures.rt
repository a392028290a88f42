//! FIGURES.
ghost use Rattle.std.specs.Prelude.{◌≡◌, ◌<◌, length};
ghost use Rattle.transyt_io.specs.Prints.{PrintsOn};
ghost use Rattle.transyt_report.specs.Measures.{network_figures, link_figures_line, link_figures_at, total_line};
ghost use Rattle.transyt_report.specs.Measures.{figures_report};

use crate::measures::{LinkFigures, link_figures};
use crate::session_link::SessionLink;
use crate::totals::network_figures;
use transyt_io::{Failed, LineBuffer, Parts, Sink, print_form, print_parts};
use transyt_session::Session;

/// Writes the line of a link.
#[tactic(auto, unfolding(crate::specs::Measures::link_figures_line))]
fn print_link_figures<K: Sink>(
    figures: LinkFigures,
    line: &mut LineBuffer,
    sink: &mut K,
) -> Result<(), Failed>
    ensures { PrintsOn K.written K.faults sink.old sink.new result (link_figures_line figures) }
{
    let numbers = [
        u128::from(figures.link),
        u128::from(figures.flow),
        u128::from(figures.sent),
        u128::from(figures.saturation),
        figures.delay,
        figures.stopped,
        u128::from(figures.queue),
    ];
    let form = b"LINK # FLOW # SENT # SATURATION # DELAY # STOPPED # QUEUE #";
    print_form(form, &numbers, line, sink)
}

/// The lines of the links in FIGURES.
#[derive(Clone, Copy)]
struct FiguresLines<'a> {
    session: &'a Session,
}

impl Parts for FiguresLines<'_> {
    ghost number = { λ self. length self.session.now.net.links };

    ghost text = { λ self. link_figures_at self.session.now.net };

    fn count(&self) -> usize {
        let net = self.session.net();
        net.links().len()
    }

    fn print<K: Sink>(
        &self,
        place: usize,
        line: &mut LineBuffer,
        sink: &mut K,
    ) -> Result<(), Failed> {
        let session = self.session;
        let link = SessionLink { session, place };
        print_link_figures(link_figures(&link), line, sink)
    }
}

/// Writes the last line.
#[tactic(auto, unfolding(crate::specs::Measures::total_line))]
fn print_total<K: Sink>(
    session: &Session,
    line: &mut LineBuffer,
    sink: &mut K,
) -> Result<(), Failed>
    ensures { PrintsOn K.written K.faults sink.old sink.new result
        (total_line (network_figures session.now.net)) }
{
    let figures = network_figures(session);
    let numbers = [
        figures.delay,
        figures.stops,
        figures.index,
        u128::from(figures.worst),
    ];
    let form = b"TOTAL DELAY # STOPS # INDEX # WORST #";
    print_form(form, &numbers, line, sink)
}

/// Writes FIGURES.
#[tactic(auto, using(transyt_io::proofs::PrintLaws::prints_front))]
pub(crate) fn print_report<K: Sink>(
    session: &Session,
    line: &mut LineBuffer,
    sink: &mut K,
) -> Result<(), Failed>
    ensures { PrintsOn K.written K.faults sink.old sink.new result
        (figures_report session.now.net) }
{
    print_parts(&FiguresLines { session }, line, sink)?;
    print_total(session, line, sink)
}
