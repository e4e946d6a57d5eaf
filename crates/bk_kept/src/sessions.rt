//! Sessions.

ghost use Rattle.std.specs.Prelude.{◌≡◌, ◌==◌, ◌<◌, length, map, IfSome, OnOk, OnErr};
ghost use Rattle.std.specs.List.{find, position};
ghost use Rattle.std.specs.Option.{option_map};
ghost use Rattle.bk_machine.specs.World.{session_numbered as numbered, with_session};
ghost use Rattle.bk_kept.specs.Keeps.{session_of};

use crate::kept::{Kept, Session};
use crate::views::InstanceView;
use bk_ids::Text;
use std::alloc::AllocError;

// The session of a number, if there is something to say of it.
fn session_numbered(sessions: &[Session], number: u8) -> Option<&Session>
    ensures { option_map (λ s. s.now) result ≡ find (λ s. s.number == number) sessions.now }
{
    sessions.iter().find(|s| s.number == number)
}

// Its place.
fn seat_of(sessions: &[Session], number: u8) -> Option<usize>
    ensures place { result ≡ position (λ s. s.number == number) sessions.now }
    ensures within { IfSome result (λ at. at < length sessions.now) }
{
    sessions.iter().position(|s| s.number == number)
}

/// Sets the name of a session's current database, in place of the one that it had. `AllocError` leaves the sessions as they were.
pub fn set_current(
    sessions: &mut Vec<Session>,
    number: u8,
    name: Option<Text>,
) -> Result<(), AllocError>
    ensures ok { OnOk result (map session_of sessions.new.items ≡ with_session (map session_of sessions.old.items) (record (numbered (map session_of sessions.old.items) number) { current = name })) }
    ensures err { OnErr result (sessions.new.items ≡ sessions.old.items) }
{
    match seat_of(sessions, number) {
        Some(at) => sessions[at].current = name,
        None => sessions.push(Session {
            number,
            current: name,
            starts: false,
        })?,
    }
    Ok(())
}

/// Sets whether a session's next backup only starts. `AllocError` leaves the sessions as they were.
pub fn set_starts(sessions: &mut Vec<Session>, number: u8, starts: bool) -> Result<(), AllocError>
    ensures ok { OnOk result (map session_of sessions.new.items ≡ with_session (map session_of sessions.old.items) (record (numbered (map session_of sessions.old.items) number) { starts = starts })) }
    ensures err { OnErr result (sessions.new.items ≡ sessions.old.items) }
{
    match seat_of(sessions, number) {
        Some(at) => sessions[at].starts = starts,
        None => sessions.push(Session {
            number,
            current: None,
            starts,
        })?,
    }
    Ok(())
}

impl Kept {
    ghost use Rattle.std.specs.Prelude.{◌≡◌, OnOk, OnErr};
    ghost use Rattle.bk_machine.specs.Acts.{turned, seated, done};
    ghost use Rattle.bk_machine.specs.World.{World};
    ghost use Rattle.bk_kept.specs.Keeps.{Keeps};

    /// The current session's current database is the one of this name, or there is none. Where there is no memory, what is kept
    /// stands for the same worlds as before.
    pub fn turn(&mut self, name: Option<Text>) -> Result<(), AllocError>
        ensures turned { OnOk result ((w : World) → Keeps w self.old → Keeps (done w (turned name)) self.new) }
        ensures err { OnErr result ((w : World) → Keeps w self.old → Keeps w self.new) }
        ensures number { self.new.number ≡ self.old.number }
        ensures counter { self.new.counter ≡ self.old.counter }
        ensures databases { self.new.databases ≡ self.old.databases }
    {
        set_current(&mut self.sessions, self.session, name)
    }

    /// This session is the current one from now on.
    pub fn seat(&mut self, session: u8)
        ensures seated { (w : World) → Keeps w self.old → Keeps (done w (seated session)) self.new }
        ensures number { self.new.number ≡ self.old.number }
        ensures counter { self.new.counter ≡ self.old.counter }
        ensures databases { self.new.databases ≡ self.old.databases }
    {
        self.session = session;
    }
}

impl<'a> InstanceView<'a> {
    ghost use Rattle.std.specs.Prelude.{◌≡◌};
    ghost use Rattle.std.specs.Option.{option_map};
    ghost use Rattle.bk_machine.specs.World.{World, current_name, session_numbered as numbered};
    ghost use Rattle.bk_kept.specs.Keeps.{Sees};

    /// The name of the current session's current database, as it was asked for.
    pub fn current(&self) -> Option<&Text>
        ensures { (w : World) → Sees w self.now → option_map (λ name. name.now) result ≡ current_name w }
    {
        let session = session_numbered(self.sessions, self.session)?;
        session.current.as_ref()
    }

    /// Whether the current session's next backup only starts.
    pub fn starts(&self) -> bool
        ensures { (w : World) → Sees w self.now → result ≡ (numbered w.sessions w.session).starts }
    {
        match session_numbered(self.sessions, self.session) {
            Some(session) => session.starts,
            None => false,
        }
    }
}
