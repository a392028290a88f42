//! CERT: the desks try a batch of places at once, and then the lines of the batch are written.
ghost use Rattle.std.specs.Prelude.{◌≡◌, ◌+◌, ◌*◌, ◌^◌, ◌≤◌, None, OnOk, length};
ghost use Rattle.transyt_moves.specs.Moves.{move_count};
ghost use Rattle.transyt_session.specs.Session.{credited};
ghost use Rattle.transyt_track.specs.Due.{cert_work};
ghost use Rattle.transyt_desks.specs.Desks.{desk_zero, AreAlike};
ghost use Rattle.transyt_io.specs.Prints.{PrintsOn};
ghost use Rattle.transyt_audit.specs.Certificate.{cert_text};
ghost use Rattle.transyt_line_answers.specs.Commands.{after_answer};
ghost use Rattle.transyt_desks.specs.Stretches.{AreTriesOf, work_found};
ghost use Rattle.transyt_reporter.specs.Conditions.{places_text, places_work, AreIdle, LeavesReady};

use crate::remarks::{Certified, remark_certified};
use crate::workers::AnswerWriter;
use std::sync::ledger::Ledger;
use std::thread::Threads;
use transyt_desks::{Desks, Gate};
use transyt_io::{Failed, LineBuffer, Sink};
use transyt_line_answers::{Answer, write_cert_end, write_cert_place};
use transyt_moves::move_count;
use transyt_session::{Session, Tried};
use transyt_steps::Steps;

/// Consecutive places whose moves the desks try at once.
#[derive(Clone, Copy, Drop)]
struct Batch {
    /// The first place.
    from: u32,
    /// How many they are.
    count: u32,
    ghost few: { from + count ≤ 57600 },
    ghost each: { count ≤ 256 },
}

/// The work of a try.
fn work_of(tried: Tried) -> u64
    ensures { result ≡ work_found tried }
{
    match tried {
        Tried::Barred => 0,
        Tried::Index { work, .. } => work,
    }
}

/// Consecutive places of a session's network, from one on, and a try of the move of each.
#[derive(Clone, Copy)]
struct TriedPlaces<'a> {
    session: &'a Session,
    from: u32,
    tries: &'a [Tried],
    ghost places: { from + length tries.now ≤ move_count session.now.net },
    ghost few: { from + length tries.now ≤ 57600 },
    ghost each: { length tries.now ≤ 256 },
    ghost tried: { AreTriesOf session.now.net from (length tries.now) tries.now },
}

impl TriedPlaces<'_> {
    /// The work of the tries.
    fn work(&self) -> u64
        ensures value { result
            ≡ places_work self.now.session.now.net self.now.from (length self.now.tries.now) }
        ensures few { result ≤ 8000 * length self.now.tries.now }
    {
        let mut work = 0;
        for number in 0..self.tries.len() {
            work += work_of(self.tries[number]);
        }
        work
    }

    /// How many tries have a lower index than the session.
    fn count_lower(&self) -> u32 {
        let index = self.session.index();
        let mut lower: u32 = 0;
        for tried in self.tries {
            if let Tried::Index { index: other, .. } = *tried
                && other < index
            {
                lower = lower.saturating_add(1);
            }
        }
        lower
    }

    /// Writes the lines of the places.
    fn write<K: Sink>(&self, line: &mut LineBuffer, sink: &mut K) -> Result<(), Failed>
        ensures { PrintsOn K.written K.faults sink.old sink.new result
            (places_text self.now.session.now.net self.now.from (length self.now.tries.now)) }
    {
        for number in 0..self.tries.len() {
            let place = self.from + number as u32;
            write_cert_place(self.session, place, self.tries[number], line, sink)?;
        }
        Ok(())
    }
}

impl<R: Threads + Sync, G: Gate> AnswerWriter<'_, R, G> {
    /// Tries the places of a batch at once, writes their lines, and adds their work. Returns how many of them have a lower
    /// index.
    fn certify_batch<K: Sink, L: Ledger>(
        &mut self,
        desks: &mut Desks,
        batch: Batch,
        sink: &mut K,
        steps: &mut Steps<L>,
    ) -> Result<u32, Failed>
        requires alike { AreAlike desks.old }
        requires closed { (desk_zero desks.old).before ≡ None }
        requires places { batch.from + batch.count ≤ move_count (desk_zero desks.old).net }
        requires each { batch.count ≤ 32 * length desks.old }
        requires room { (desk_zero desks.old).work ≤ 2 ^ 61 }
        ensures prints { PrintsOn K.written K.faults sink.old sink.new result
            (places_text (desk_zero desks.old).net batch.from batch.count) }
        ensures state { desk_zero desks.new
            ≡ credited (places_work (desk_zero desks.old).net batch.from batch.count)
            (desk_zero desks.old) }
        ensures few { places_work (desk_zero desks.old).net batch.from batch.count
            ≤ 8000 * batch.count }
        ensures alike { AreAlike desks.new }
        ensures workers { length desks.new ≡ length desks.old }
        ensures steps { length desks.old ≡ 1
            → steps.new + cert_work (desk_zero desks.old).net batch.from
            ≡ steps.old + cert_work (desk_zero desks.old).net (batch.from + batch.count) }
        ensures writer { self.new.workers.count ≡ self.old.workers.count }
    {
        let mut room = [Tried::Barred; 256];
        let tries = &mut room[..batch.count as usize];
        let workers = &self.workers;
        desks.try_moves(workers.rt, workers.gate, batch.from, tries, steps);
        let places = TriedPlaces {
            session: desks.session(),
            from: batch.from,
            tries,
        };
        let work = places.work();
        let lower = places.count_lower();
        let written = places.write(&mut self.line, sink);
        desks.session_mut().credit(work);
        written?;
        Ok(lower)
    }

    /// Writes the certificate of the network now, a batch of places after another, and adds its work. On Failed some first
    /// bytes of it were written. It takes no memory.
    pub(crate) fn certify<K: Sink, L: Ledger>(
        &mut self,
        desks: &mut Desks,
        sink: &mut K,
        steps: &mut Steps<L>,
    ) -> Result<(), Failed>
        requires idle { AreIdle desks.old }
        requires len { length desks.old ≡ self.old.workers.count }
        ensures prints { PrintsOn K.written K.faults sink.old sink.new result
            (cert_text (desk_zero desks.old).net) }
        ensures state { OnOk result
            (desk_zero desks.new ≡ after_answer Answer.Cert (desk_zero desks.old)) }
        ensures workers { self.new.workers.count ≡ self.old.workers.count }
        ensures leaves { LeavesReady 8000072000 (after_answer Answer.Cert (desk_zero desks.old))
            desks.old desks.new steps.old steps.new }
    {
        let places = move_count(desks.session().net());
        let mut from = 0;
        let mut lower: u32 = 0;
        while from < places {
            let count = (places - from).min(32 * self.workers.count);
            let more = self.certify_batch(desks, Batch { from, count }, sink, steps)?;
            from += count;
            lower = lower.saturating_add(more);
            let certified = Certified {
                places,
                done: from,
                lower,
            };
            remark_certified(certified, count, sink);
        }
        write_cert_end(places, desks.session(), &mut self.line, sink)
    }
}
