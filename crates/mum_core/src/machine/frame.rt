//! The step `frame`: the worker of a connection takes a frame.

ghost use Rattle.std.specs.Prelude.{◌≡◌, ◌++◌, IfOk, IsOk, OnOk, string_bytes};
ghost use Rattle.mum_base.specs.Refusal.{Settles};
ghost use Rattle.mum_core.specs.Case.{first_that_stands, named_cause};
ghost use Rattle.mum_core.specs.Line.{joined};
ghost use Rattle.std.specs.Prelude.{◌∷◌, [], None, true};
ghost use Rattle.mum_frame.specs.Frame.{IsOneFrame, kind_of, payload_of};
ghost use Rattle.mum_voice.specs.Packet.{packet};
ghost use Rattle.mum_session.specs.declared.action.Action.TheVariants.{Ask, Echo, Ignore, Keep};
ghost use Rattle.mum_session.specs.Action.{action as session_action, after_frame};
ghost use Rattle.mum_core.specs.Core.{connection_at, is_opened};
ghost use Rattle.mum_core.specs.Machine.{machine_of};
ghost use Rattle.mum_core.specs.Step.{frame_action, frame_version};
ghost use Rattle.mum_core.specs.steps.Frame.{forbids, does, hears, heard_line, lines, spoken};

use super::{Machine, StepFault, illegal};
use crate::connection::{Connection, ask_at, keep_version_at};
use crate::worker::{Held, hold_at};
use mum_base::{Octets, OutOfMemory, Reason};
use mum_frame::{Frame, whole_frame};
use mum_record::{Word, push_line};
use mum_session::{Action, Command};
use mum_voice::Packet;
use std::alloc::Global;
use std::mem::drop;

// The frame that bytes are, with a payload of its own.
fn frame_of(alloc: Global, bytes: &[u8]) -> Result<Frame, OutOfMemory>
    requires { IsOneFrame bytes.now }
    ensures kind { IfOk result (λ frame. frame.kind ≡ kind_of bytes.now) }
    ensures payload { IfOk result (λ frame. frame.payload ≡ payload_of bytes.now) }
{
    let found = whole_frame(bytes).unwrap();
    Ok(Frame {
        kind: found.kind,
        payload: Octets::of(alloc, found.payload)?,
    })
}

// What the frame of a connection asks for, and the version that the connection has sent by then.
fn asked_by(
    alloc: Global,
    connection: &Connection,
    number: u32,
    bytes: &[u8],
) -> Result<(Action, Option<u32>), OutOfMemory>
    requires { IsOneFrame bytes.now }
    ensures action { IfOk result
        (λ asked. asked.0
        ≡ session_action (machine_of number connection.now) (kind_of bytes.now) (payload_of bytes.now)) }
    ensures version { IfOk result
        (λ asked. asked.1
        ≡ (after_frame (machine_of number connection.now) (kind_of bytes.now) (payload_of bytes.now)).version) }
{
    let mut machine = connection.machine(number);
    let action = machine.frame(alloc, frame_of(alloc, bytes)?)?;
    Ok((action, machine.version()))
}

impl Machine {
    pub(super) fn take_frame(
        &mut self,
        connection: u32,
        bytes: &[u8],
        text: &mut String,
    ) -> Result<(), StepFault>
        requires { IsOneFrame bytes.now }
        ensures settled { Settles named_cause (first_that_stands (forbids self.old connection))
            (does self.old connection (frame_version self.old connection bytes.now) (frame_action self.old connection bytes.now))
            self.old result self.new }
        ensures told { OnOk result (string_bytes text.new ≡ string_bytes text.old
            ++ joined (lines connection (frame_action self.old connection bytes.now))) }
    {
        let Some(found) = self.connection(connection) else {
            return Err(self.unopened(connection));
        };
        if let Some(line) = found.closed {
            return Err(illegal(u64::from(connection), line));
        }
        if found.is_untold() {
            return Err(illegal(u64::from(connection), found.untold()));
        }
        let worker = u32::from(found.worker);
        let in_hand = self.in_hand(worker);
        if in_hand > 0 {
            return Err(illegal(u64::from(worker), in_hand));
        }
        let (action, version) = asked_by(self.alloc, found, connection, bytes)?;
        self.act(connection, version, action, text)
    }

    // What a frame asks for is done. The connection has sent this version.
    fn act(
        &mut self,
        connection: u32,
        version: Option<u32>,
        action: Action,
        text: &mut String,
    ) -> Result<(), StepFault>
        requires { is_opened self.old connection ≡ true }
        ensures settled { Settles named_cause None (does self.old connection version action) self.old result self.new }
        ensures told { OnOk result (string_bytes text.new ≡ string_bytes text.old ++ joined (lines connection action)) }
    {
        match action {
            Action::Ask(command) => self.ask(connection, command, text),
            Action::Voice(packet) => self.hear(connection, packet, text),
            Action::Echo(frame) => self.echo(connection, &frame, text),
            Action::Keep => self.keep(connection, version, text),
            Action::Ignore { why } => self.ignore(connection, why, text),
            Action::Bans(_) => self.ignore(connection, Reason::NotRead.code(), text),
        }
    }

    // The command of a frame waits to be decided.
    fn ask(&mut self, connection: u32, command: Command, text: &mut String) -> Result<(), StepFault>
        requires { is_opened self.old connection ≡ true }
        ensures settled { Settles named_cause None (does self.old connection None (Ask command)) self.old result self.new }
        ensures told { OnOk result
            (string_bytes text.new ≡ string_bytes text.old ++ joined (lines connection (Ask command))) }
    {
        let number = Word::Number(u64::from(connection));
        if let Err(error) = push_line(self.alloc, text, "asked", &[number]) {
            drop(command);
            return Err(StepFault::from(error));
        }
        ask_at(&mut self.connections, connection as usize - 1, command.what);
        Ok(())
    }

    // A Ping is answered by this frame.
    fn echo(&self, connection: u32, frame: &Octets, text: &mut String) -> Result<(), StepFault>
        ensures settled { Settles named_cause None self.now self.now result self.now }
        ensures told { OnOk result
            (string_bytes text.new ≡ string_bytes text.old ++ joined (lines connection (Echo frame.now))) }
    {
        let words = [
            Word::Number(u64::from(connection)),
            Word::Digits(frame.as_slice()),
        ];
        push_line(self.alloc, text, "echo", &words)?;
        Ok(())
    }

    // The connection has sent this version.
    fn keep(
        &mut self,
        connection: u32,
        version: Option<u32>,
        text: &mut String,
    ) -> Result<(), StepFault>
        requires { is_opened self.old connection ≡ true }
        ensures settled { Settles named_cause None (does self.old connection version Keep) self.old result self.new }
        ensures told { OnOk result (string_bytes text.new ≡ string_bytes text.old ++ joined (lines connection Keep)) }
    {
        let number = Word::Number(u64::from(connection));
        push_line(self.alloc, text, "kept", &[number])?;
        keep_version_at(&mut self.connections, connection as usize - 1, version);
        Ok(())
    }

    // A frame is passed over, for this reason.
    fn ignore(&self, connection: u32, why: u8, text: &mut String) -> Result<(), StepFault>
        ensures settled { Settles named_cause None self.now self.now result self.now }
        ensures told { OnOk result
            (string_bytes text.new ≡ string_bytes text.old ++ joined (lines connection (Ignore why))) }
    {
        let words = [
            Word::Number(u64::from(connection)),
            Word::Number(u64::from(why)),
        ];
        push_line(self.alloc, text, "ignored", &words)?;
        Ok(())
    }

    // The worker of a connection takes a voice packet.
    fn hear(&mut self, connection: u32, payload: Octets, text: &mut String) -> Result<(), StepFault>
        requires { is_opened self.old connection ≡ true }
        ensures settled { Settles named_cause None
            (hears self.old (connection_at self.old connection).worker (spoken (connection_at self.old connection).seat (packet payload)))
            self.old result self.new }
        ensures told { OnOk result
            (string_bytes text.new ≡ string_bytes text.old ++ joined (heard_line connection (packet payload) ∷ [])) }
    {
        let number = Word::Number(u64::from(connection));
        if let Err(fault) = Packet::parse(payload.as_slice()) {
            let code = Word::Number(u64::from(fault.code));
            push_line(self.alloc, text, "bad", &[number, code])?;
            return Ok(());
        }
        push_line(self.alloc, text, "heard", &[number])?;
        self.hold(connection, payload);
        Ok(())
    }

    // The worker of a connection holds a packet of the session that sits there.
    fn hold(&mut self, connection: u32, payload: Octets)
        requires opened { is_opened self.old connection ≡ true }
        requires parses { IsOk (packet payload) }
        ensures { self.new
            ≡ hears self.old (connection_at self.old connection).worker
            (spoken (connection_at self.old connection).seat (packet payload)) }
    {
        let place = connection as usize - 1;
        let worker = self.connections[place].worker as usize;
        if let Some(seat) = self.connections[place].seat {
            hold_at(&mut self.workers, worker, Held::new(seat.session, payload));
        }
    }
}
