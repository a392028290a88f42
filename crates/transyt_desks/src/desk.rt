//! One desk, and how it comes to the network of desk 0.

ghost use Rattle.std.specs.Prelude.{◌≡◌, ℕ, ◌<◌, length, ◌↔◌, IsTrue};
ghost use Rattle.transyt_session.specs.Session.{standing_for};
ghost use Rattle.transyt_desks.specs.Desks.{new_desk, session_at, sessions_of};
ghost use Rattle.transyt_desks.specs.Batches.{CanFollow};

use crate::equal::same_net;
use crate::results::TryResults;
use transyt_net::Net;
use transyt_session::Session;

/// A session, and what the last moves tried on it came to.
#[derive(Drop)]
pub(crate) struct Desk {
    pub(crate) session: Session,
    pub(crate) results: TryResults,
}

impl Desk {
    /// A desk with this session, which has tried nothing.
    pub(crate) fn new(session: Session) -> Desk
        ensures { result ≡ new_desk session }
    {
        Desk {
            session,
            results: TryResults::none(),
        }
    }
}

/// Whether all desks stand for a network.
pub(crate) fn all_stand(desks: &[Desk], net: &Net) -> bool
    ensures { IsTrue result
        ↔ ((k : ℕ) → k < length desks.now → (session_at (sessions_of desks.now) k).net ≡ net.now) }
{
    for i in 0..desks.len() {
        if !same_net(desks[i].session.net(), net) {
            return false;
        }
    }
    true
}

/// Lets a session stand for the network of another; where it is known to, nothing is to be done. It takes no memory.
pub(crate) fn follow(session: &mut Session, zero: &Session, known: bool)
    requires { CanFollow zero.now.net known session.old }
    ensures { session.new ≡ standing_for zero.now.net session.old }
{
    if known || same_net(session.net(), zero.net()) {
        return;
    }
    session.take_over(zero);
}
