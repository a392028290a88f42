//! Remarks of a run, which a sink is told beside its report.
ghost use Rattle.std.specs.Prelude.{◌≡◌};

use transyt_io::Sink;
use transyt_line_answers::{Answer, RefusedCard};
use transyt_sentences::{on_budget, on_card, on_certificate, on_command, on_refused_commands};

/// Tells why a card was refused.
pub(crate) fn remark_card<K: Sink>(refused: &RefusedCard, sink: &mut K)
    ensures written { K.written sink.new ≡ K.written sink.old }
    ensures faults { K.faults sink.new ≡ K.faults sink.old }
{
    let sentence = on_card(refused.card, &refused.refusal);
    sink.remark(sentence.bytes());
}

/// So many refused commands of a run are told one by one, and then each one of a hundred, with how many came since.
const EACH_TOLD: u32 = 100;

/// Tells why the command of the line with this number, from 1, was refused, if it was and is told: it is the refused
/// command of the run with this count, from 1.
pub(crate) fn remark_command<K: Sink>(number: u32, count: u32, answer: &Answer, sink: &mut K)
    ensures written { K.written sink.new ≡ K.written sink.old }
    ensures faults { K.faults sink.new ≡ K.faults sink.old }
{
    let Answer::Refused(refusal) = answer else {
        return;
    };
    if count <= EACH_TOLD {
        sink.remark(on_command(number, refusal, 0).bytes());
    } else if count % EACH_TOLD == 0 {
        sink.remark(on_command(number, refusal, EACH_TOLD - 1).bytes());
    }
}

/// Tells how a climb goes on that ended with BUDGET after so many looks.
pub(crate) fn remark_end<K: Sink>(is_local: bool, looked: u32, sink: &mut K)
    ensures written { K.written sink.new ≡ K.written sink.old }
    ensures faults { K.faults sink.new ≡ K.faults sink.old }
{
    if !is_local {
        sink.remark(on_budget(looked).bytes());
    }
}

/// A certificate of more places than these tells how far it is.
const FEW_PLACES: u32 = 5000;

/// How many remarks a certificate has at most.
const MOST_REMARKS: u32 = 50;

/// How far a certificate is.
#[derive(Clone, Copy)]
pub(crate) struct Certified {
    /// How many places it has.
    pub(crate) places: u32,
    /// How many of them are written.
    pub(crate) done: u32,
    /// How many of those written have a lower index.
    pub(crate) lower: u32,
}

impl Certified {
    /// Whether these places more reached a fiftieth part of all, and not the last.
    fn is_due(self, more: u32) -> bool {
        let part = self.places.div_ceil(MOST_REMARKS).max(1);
        self.places > FEW_PLACES
            && self.done < self.places
            && self.done / part > self.done.saturating_sub(more) / part
    }
}

/// Tells how far a long certificate is, now that these places more are written.
pub(crate) fn remark_certified<K: Sink>(certified: Certified, more: u32, sink: &mut K)
    ensures written { K.written sink.new ≡ K.written sink.old }
    ensures faults { K.faults sink.new ≡ K.faults sink.old }
{
    if certified.is_due(more) {
        let Certified {
            places,
            done,
            lower,
        } = certified;
        sink.remark(on_certificate(done, places, lower).bytes());
    }
}

/// Tells how many commands of a run were refused, if any were.
pub(crate) fn remark_refused<K: Sink>(count: u32, sink: &mut K)
    ensures written { K.written sink.new ≡ K.written sink.old }
    ensures faults { K.faults sink.new ≡ K.faults sink.old }
{
    if count > 0 {
        sink.remark(on_refused_commands(count).bytes());
    }
}
