// How far each session is, by its place.
ghost use Rattle.std.specs.Prelude.{◌≡◌, ◌<◌, ℕ, IfOk, length};
ghost use Rattle.hose_clerk.specs.steps.Sessions.{IsPut, LeavesAll, is_new_at, is_over_at, session_at};
ghost use Rattle.hose_clerk.specs.declared.sessions.Session.TheVariants.{Over};

use hose_core::QuotesByCustomer;
use hose_graph::Name;
use std::alloc::AllocError;
use std::mem::replace;

/// The customer of a session, and the quotes that were told to it there.
#[derive(Drop)]
pub struct Client {
    pub name: Name,
    pub quotes: QuotesByCustomer,
}

/// How far a session is.
#[derive(Drop)]
pub enum Session {
    /// It gave no line yet.
    New,
    /// It serves a customer.
    Serving(Client),
    /// No line of it is answered any more; or no one is there.
    Over,
}

impl Session {
    /// It gave no line yet.
    pub fn is_new(&self) -> bool
        ensures { result ≡ is_new_at self.now }
    {
        match self {
            Session::New => true,
            Session::Serving(_) => false,
            Session::Over => false,
        }
    }

    /// No line of it is answered any more.
    pub fn is_over(&self) -> bool
        ensures { result ≡ is_over_at self.now }
    {
        match self {
            Session::New => false,
            Session::Serving(_) => false,
            Session::Over => true,
        }
    }
}

/// Whether no line of who is at a place is answered any more.
pub fn is_over(sessions: &[Session], place: usize) -> bool
    ensures { result ≡ is_over_at (session_at sessions.now place) }
{
    match sessions.get(place) {
        Some(session) => session.is_over(),
        None => true,
    }
}

/// The session at a place, where none is left.
pub fn take(sessions: &mut Vec<Session>, place: usize) -> Session
    ensures session { result ≡ session_at sessions.old.items place }
    ensures left { IsPut sessions.old.items place Over sessions.new.items }
    ensures same { length sessions.new.items ≡ length sessions.old.items }
{
    if place >= sessions.len() {
        return Session::Over;
    }
    replace(&mut sessions[place], Session::Over)
}

/// Puts a session at a place that there is.
pub fn put(sessions: &mut Vec<Session>, place: usize, session: Session)
    requires { place < length sessions.old.items }
    ensures { IsPut sessions.old.items place session sessions.new.items }
{
    sessions[place] = session;
}

/// Makes this place, and all before it.
pub fn make_room(sessions: &mut Vec<Session>, place: usize) -> Result<(), AllocError>
    ensures there { IfOk result (λ _. place < length sessions.new.items) }
    ensures left { LeavesAll sessions.old.items sessions.new.items }
{
    while sessions.len() <= place {
        if sessions.push(Session::Over).is_err() {
            return Err(AllocError);
        }
    }
    Ok(())
}
