//! The desks of a network, or of a deck, are opened.
ghost use Rattle.std.specs.Prelude.{◌≡◌, ◌≤◌, ◌+◌, ◌*◌, length, None, IfOk, OnOk, OnErr, IsTrue};
ghost use Rattle.transyt_deck.specs.Deck.{is_complete};
ghost use Rattle.transyt_session.specs.Session.{opened};
ghost use Rattle.transyt_desks.specs.Desks.{desk_zero, opened_desks};
ghost use Rattle.transyt_line_answers.specs.Report.{InSession, deck_steps, run_of};
ghost use Rattle.transyt_reporter.specs.Reporter.{AreKept};

use crate::workers::Workers;
use std::alloc::{AllocError, Global};
use std::sync::ledger::Ledger;
use transyt_deck::CardReader;
use transyt_desks::Desks;
use transyt_net::Net;
use transyt_session::Session;
use transyt_steps::Steps;

/// Opens a session of a network. What it moves on the stack is gone when it returns, before the desks are opened.
#[inline(never)]
fn open_session<L: Ledger>(
    alloc: Global,
    net: Net,
    steps: &mut Steps<L>,
) -> Result<Session, AllocError>
    ensures value { IfOk result (λ session. session ≡ opened net) }
    ensures ok { OnOk result (steps.new ≡ steps.old + net.frame.sweeps * length net.links) }
    ensures err { OnErr result (steps.new ≤ steps.old + net.frame.sweeps * length net.links) }
{
    Session::open(alloc, net, steps)
}

impl<R, G> Workers<'_, R, G> {
    /// Opens desks for the workers, with this session as desk 0.
    #[inline(never)]
    fn open_desks(&self, alloc: Global, session: Session) -> Result<Desks, AllocError>
        requires { session.before ≡ None }
        ensures { IfOk result (λ desks. desks ≡ opened_desks session self.now.count) }
    {
        Desks::open(alloc, session, self.count)
    }

    /// Opens a session of a network, and desks for the workers: all memory of the commands is taken here.
    pub(crate) fn desks_of<L: Ledger>(
        &self,
        alloc: Global,
        net: Net,
        steps: &mut Steps<L>,
    ) -> Result<Desks, AllocError>
        ensures value { IfOk result (λ desks. desks ≡ opened_desks (opened net) self.now.count) }
        ensures ok { OnOk result (steps.new ≡ steps.old + net.frame.sweeps * length net.links) }
        ensures err { OnErr result (steps.new ≤ steps.old + net.frame.sweeps * length net.links) }
    {
        let session = open_session(alloc, net, steps)?;
        self.open_desks(alloc, session)
    }

    /// Opens the desks of a complete deck.
    pub(crate) fn desks_of_deck<L: Ledger>(
        &self,
        alloc: Global,
        cards: CardReader,
        steps: &mut Steps<L>,
    ) -> Result<Desks, AllocError>
        requires complete { IsTrue (is_complete cards.deck) }
        ensures zero { IfOk result (λ desks. run_of cards.deck ≡ InSession (desk_zero desks)) }
        ensures kept { IfOk result (λ desks. AreKept self.now.count 0 desks) }
        ensures ok { OnOk result (steps.new ≡ steps.old + deck_steps cards.deck) }
        ensures err { OnErr result (steps.new ≤ steps.old + deck_steps cards.deck) }
    {
        let Ok(net) = cards.finish() else {
            unreachable!()
        };
        self.desks_of(alloc, net, steps)
    }
}
