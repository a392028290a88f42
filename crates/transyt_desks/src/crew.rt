//! Who tries beside desk 0: the crew of the desks.

ghost use Rattle.std.specs.Prelude.{◌≡◌, ◌++◌, ◌∷◌, [], replicate, None, IfOk, ◌==◌, if◌then◌else◌};
ghost use Rattle.transyt_session.specs.Session.{opened};
ghost use Rattle.transyt_desks.specs.Desks.{new_desk, sessions_of};

use crate::desk::Desk;
use std::alloc::{AllocError, Global};
use transyt_session::Session;

/// How many try beside desk 0 with so many workers: none with one, and else one more than there are other desks.
pub(crate) fn crew_size(workers: u32) -> u32
    ensures { result ≡ (if workers == 1 then 0 else workers) }
{
    match workers {
        1 => 0,
        _ => workers,
    }
}

/// A twin of a session. What it moves on the stack is gone when it returns, before the twin is put at a desk.
#[inline(never)]
fn twin_of(alloc: Global, session: &Session) -> Result<Session, AllocError>
    requires closed { session.now.before ≡ None }
    ensures { IfOk result (λ twin. twin ≡ opened session.now.net) }
{
    session.twin(alloc)
}

/// Puts a session at a desk more.
#[inline(never)]
fn add_desk(crew: &mut Vec<Desk>, session: Session) -> Result<(), AllocError>
    ensures { IfOk result (λ _. crew.new.items ≡ crew.old.items ++ new_desk session ∷ []) }
{
    crew.push(Desk::new(session))?;
    Ok(())
}

/// So many twins of a session, each at a desk.
pub(crate) fn open_crew(
    alloc: Global,
    session: &Session,
    count: u32,
) -> Result<Vec<Desk>, AllocError>
    requires closed { session.now.before ≡ None }
    ensures { IfOk result
        (λ crew. sessions_of crew.items ≡ replicate count (opened session.now.net)) }
{
    let mut crew = Vec::new(alloc);
    for made in 0..count {
        let twin = twin_of(alloc, session)?;
        add_desk(&mut crew, twin)?;
    }
    Ok(crew)
}
