//! The plot.
ghost use Rattle.std.specs.Prelude.{◌≡◌, ◌≤◌, ◌<◌, length};
ghost use Rattle.transyt_net.specs.Parts.{link_of};
ghost use Rattle.transyt_sweep.specs.Sweeps.{evaluated};
ghost use Rattle.transyt_io.specs.Prints.{PrintsOn};
ghost use Rattle.transyt_report.specs.Plot.{scale_of, scale_line, step_lines, plot_text};

use crate::field::{letters, put_field, put_step};
use crate::{SessionLink, greatest};
use transyt_io::{Failed, LineBuffer, Parts, Sink, print_form, print_parts, write_line};
use transyt_session::Session;

/// The plot of a link: its parts are the lines of the steps. Values are in millionths of a vehicle.
#[derive(Clone, Copy)]
struct LinkPlot<'a> {
    /// The card number of the link.
    number: u32,
    /// The greatest of all values.
    scale: u64,
    /// The arrivals at the last sweep, before any cut, a value for each step of the cycle.
    arrivals: &'a [u64],
    /// Its GO.
    go: &'a [u64],
    /// Its departures.
    out: &'a [u64],
    ghost few: { length arrivals.now < 1000 },
    ghost go_steps: { length go.now ≡ length arrivals.now },
    ghost out_steps: { length out.now ≡ length arrivals.now },
    ghost greatest: { scale ≡ scale_of arrivals.now go.now out.now },
}

/// The plot of a link.
fn link_plot<'a>(link: &SessionLink<'a>) -> LinkPlot<'a>
    ensures number { result.number ≡ (link_of link.now.session.now.net link.now.place).number }
    ensures arrivals { result.arrivals.now
        ≡ (evaluated link.now.session.now.net link.now.place).arrivals }
    ensures go { result.go.now ≡ (evaluated link.now.session.now.net link.now.place).go }
    ensures out { result.out.now ≡ (evaluated link.now.session.now.net link.now.place).out }
{
    let arrivals = link.arrivals();
    let go = link.go();
    let out = link.out();
    let most = greatest(0, arrivals);
    let scale = greatest(greatest(most, go), out);
    let number = link.number();
    LinkPlot {
        number,
        scale,
        arrivals,
        go,
        out,
    }
}

/// The line becomes that of a step: arrivals, GO and departures, as bars.
#[tactic(auto, unfolding(crate::specs::Plot::step_line))]
fn set_step(plot: &LinkPlot, step: usize, line: &mut LineBuffer)
    requires { step < length plot.now.arrivals.now }
    ensures text { line.new ≡ step_lines plot.now.scale plot.now.arrivals.now plot.now.go.now
        plot.now.out.now step }
    ensures some { 0 < length line.new }
{
    line.clear();
    put_step(step as u32, line);
    line.put(b" ");
    put_field(b'I', letters(plot.scale, plot.arrivals[step]), line);
    line.put(b"|");
    put_field(b'G', letters(plot.scale, plot.go[step]), line);
    line.put(b"|");
    put_field(b'O', letters(plot.scale, plot.out[step]), line);
    line.put(b"\n");
}

impl Parts for LinkPlot<'_> {
    ghost number = { λ self. length self.arrivals.now };

    ghost text = { λ self.
        step_lines (scale_of self.arrivals.now self.go.now self.out.now) self.arrivals.now
        self.go.now self.out.now };

    fn count(&self) -> usize {
        self.arrivals.len()
    }

    fn print<K: Sink>(
        &self,
        place: usize,
        line: &mut LineBuffer,
        sink: &mut K,
    ) -> Result<(), Failed> {
        set_step(self, place, line);
        write_line(line, sink)
    }
}

/// Writes the first line.
#[tactic(auto, unfolding(crate::specs::Plot::scale_line))]
fn print_scale<K: Sink>(plot: &LinkPlot, line: &mut LineBuffer, sink: &mut K) -> Result<(), Failed>
    ensures { PrintsOn K.written K.faults sink.old sink.new result
        (scale_line plot.now.number
        (scale_of plot.now.arrivals.now plot.now.go.now plot.now.out.now)) }
{
    let numbers = [u128::from(plot.number), u128::from(plot.scale)];
    print_form(b"PLOT # SCALE #", &numbers, line, sink)
}

/// Appends the plot of the link at a place, each line handed to `write` in one piece: the step in three digits, then
/// arrivals (before any cut), GO and departures, as 20 characters each for the greatest value of all three.
///
/// Failed comes only where the sink's count rose; a front of the text was appended then. What `line` held before is
/// lost, and what it holds afterwards is unspecified.
pub fn plot<K: Sink>(
    session: &Session,
    link: usize,
    line: &mut LineBuffer,
    sink: &mut K,
) -> Result<(), Failed>
    requires { link < length session.now.net.links }
    ensures { PrintsOn K.written K.faults sink.old sink.new result
        (plot_text session.now.net link) }
{
    let here = link_plot(&SessionLink {
        session,
        place: link,
    });
    print_scale(&here, line, sink)?;
    print_parts(&here, line, sink)
}
