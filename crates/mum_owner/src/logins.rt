//! Logins that wait for their slot.

ghost use Rattle.std.specs.Prelude.{◌≡◌, ◌<◌, ◌==◌, ◌++◌, ◌∷◌, [], nat_lt, length, IfOk, IfSome, MatchOption};
ghost use Rattle.mum_base.specs.declared.number.TheConstants.{CONNECTION_LIMIT};
ghost use Rattle.mum_port.specs.Asked.{WasAsked};
ghost use Rattle.mum_owner.specs.Written.{is_join, is_leave, is_login};

use mum_base::{CONNECTION_LIMIT, OutOfMemory};
use mum_rules_user::UserMessage;
use mum_session::{Asked, Command};
use std::alloc::Global;
use std::collections::VecDeque;
use std::marker::Model;

fn is_join(what: &Asked) -> bool
    ensures { result ≡ is_join what.now }
{
    matches!(what, Asked::User(UserMessage::Join(_, _)))
}

// Whether a command is the login of a connection that has no session.
pub(crate) fn is_login(command: &Command) -> bool
    ensures { result ≡ is_login command.now }
{
    match command.session {
        Some(_) => false,
        None => is_join(&command.what),
    }
}

// Whether a command reports that its connection ended.
pub(crate) fn is_leave(what: &Asked) -> bool
    ensures { result ≡ is_leave what.now }
{
    matches!(what, Asked::User(UserMessage::Leave))
}

// Logins in the order in which they came, each of which was asked for. Each connection waits for its reply, so there is at most one of each,
// and there is room for one of each that may be open.
#[derive(Drop)]
pub(crate) struct Logins {
    waiting: VecDeque<Command>,
}

impl Model for Logins {
    ghost use Rattle.std.specs.Prelude.{ℕ, ◌≤◌, List};
    ghost use Rattle.std.specs.List.{AllByRecursion};
    ghost use Rattle.std.specs.VecDeque.{deque_capacity};
    ghost use Rattle.mum_base.specs.declared.number.TheConstants.{CONNECTION_LIMIT};
    ghost use Rattle.mum_port.specs.Asked.{WasAsked};
    ghost use Rattle.mum_session.specs.declared.command.Command.{Command};

    ghost Value = { List Command };

    ghost view = { λ l. l.waiting.items };

    ghost invariant = { λ l. (CONNECTION_LIMIT ≤ deque_capacity l.waiting)
        × AllByRecursion (λ login. WasAsked login.what) l.waiting.items };
}

impl Logins {
    pub(crate) fn open(alloc: Global) -> Result<Logins, OutOfMemory>
        ensures { IfOk result (λ logins. logins ≡ []) }
    {
        Ok(Logins {
            waiting: VecDeque::with_capacity(alloc, CONNECTION_LIMIT)?,
        })
    }

    // Whether none waits.
    pub(crate) fn are_none(&self) -> bool
        ensures { result ≡ (length self.now == 0) }
    {
        self.waiting.is_empty()
    }

    // Whether one more may wait.
    pub(crate) fn have_room(&self) -> bool
        ensures { result ≡ nat_lt (length self.now) CONNECTION_LIMIT }
    {
        self.waiting.len() < CONNECTION_LIMIT
    }

    // One more waits, after the others.
    pub(crate) fn wait(&mut self, login: Command)
        requires room { length self.old < CONNECTION_LIMIT }
        requires asked { WasAsked login.what }
        ensures { self.new ≡ self.old ++ login ∷ [] }
    {
        self.waiting.push_back_reserved(login);
    }

    // The first that waits goes.
    pub(crate) fn next(&mut self) -> Option<Command>
        ensures first { MatchOption result ((self.old ≡ []) × (self.new ≡ [])) (λ login. self.old ≡ login ∷ self.new) }
        ensures asked { IfSome result (λ login. WasAsked login.what) }
    {
        self.waiting.pop_front()
    }
}
