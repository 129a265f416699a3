//! Both ends of a line, and commands one after another: each may depend on the answers before it.
ghost use Rattle.std.specs.Prelude.{◌≡◌, ◌<◌, List, true, OnOk, OnErr, length};
ghost use Rattle.t1_core.specs.declared.line.Fates.{Fates};
ghost use Rattle.t1_core.specs.declared.settings.Settings.{Settings};
ghost use Rattle.t1_core.specs.Carried.{EndsOf, HasCarried, Past, nothing_yet, with_command};
ghost use Rattle.t1_core.specs.Conversing.{Conversed};
ghost use Rattle.t1_core.specs.Doing.{AreRooms};
ghost use Rattle.t1_core.specs.OneCommand.{HasDone};
ghost use Rattle.t1_core.specs.TerminalSide.{fault_of, fresh, has_stopped, is_ready};

use crate::applet::Applet;
use crate::card::{BlockCard, Rooms};
use crate::line::{Fates, Line};
use crate::pass::pass;
use crate::terminal::{Fault, TerminalEnd};
use std::alloc::AllocError;
use std::marker::Model;

/// Both ends of a line. `carry` takes a command to the card and its response back; the next command
/// may depend on it. After a fault no command can begin.
#[derive(Drop)]
pub struct Ends<C: Applet> {
    terminal: TerminalEnd,
    card: BlockCard<C>,
}

impl<C: Applet> Model for Ends<C> {
    ghost use Rattle.t1_core.specs.Carried.{EndsOf};

    ghost Value = { EndsOf C };

    ghost view = { λ e. record { terminal = e.terminal; card = e.card } };
}

impl<C: Applet> Ends<C> {
    /// Makes both ends after a reset. `terminal` is new, and `rooms` those of `rooms_for`. The card
    /// above is in the state of `applet`.
    pub fn new(terminal: TerminalEnd, rooms: Rooms, applet: C) -> Ends<C>
        requires new { (settings : Settings) × (terminal ≡ fresh settings) }
        requires rooms { AreRooms C.LIMIT rooms }
        ensures led { (settings : Settings) (passed : List Fates) → terminal ≡ fresh settings
            → HasCarried C.Applet (nothing_yet settings (C.standing applet) passed) passed result }
        ensures ready { is_ready result.terminal.phase ≡ true }
    {
        Ends {
            terminal,
            card: BlockCard::new(rooms, applet),
        }
    }

    /// Carries a command to the card over the line, until its response has arrived or the terminal
    /// gives up: `response` and `fault` tell which. `is_ready` must hold. Each call gets the same
    /// line, which nothing else uses. A block whose command the card above refuses has no reply.
    ///
    /// # Errors
    /// - `AllocError`: memory for a command longer than `COMMAND_ROOM` ran out before the first
    ///   block; nothing has changed.
    pub fn carry<L: Line>(&mut self, line: &mut L, command: &[u8]) -> Result<(), AllocError>
        requires ready { is_ready self.old.terminal.phase ≡ true }
        requires led { (past : Past C.State)
            × HasCarried C.Applet past (L.passed line.old) self.old }
        // Adds this command to the history of both ends.
        ensures led { OnOk result ((past : Past C.State)
            → HasCarried C.Applet past (L.passed line.old) self.old
            → HasCarried C.Applet (with_command past command.now self.new.terminal)
            (L.passed line.new) self.new) }
        // What this command has done to the card.
        ensures done { OnOk result (HasDone C.Does (C.standing self.old.card.card) command.now
            self.new.terminal.got (C.standing self.new.card.card) (fault_of self.new.terminal)) }
        ensures nothing_sent { OnErr result
            ((self.new ≡ self.old) × (L.passed line.new ≡ L.passed line.old)) }
        ensures memory { OnErr result (261 < length command.now) }
        ensures stopped { OnOk result (has_stopped self.new.terminal.phase ≡ true) }
    {
        let Ok(()) = self.terminal.begin(command) else {
            return Err(AllocError);
        };
        'exchanges: while !self.terminal.has_stopped() {
            let fates = line.next();
            pass(&mut self.terminal, &mut self.card, fates);
        }
        Ok(())
    }

    /// Whether a command can begin: none is in progress, and there was no fault.
    pub fn is_ready(&self) -> bool
        ensures { result ≡ is_ready self.now.terminal.phase }
    {
        self.terminal.is_ready()
    }

    /// The response to the last command; after a fault, the part of it that has arrived, without a
    /// field that goes beyond the limit.
    pub fn response(&self) -> &[u8]
        ensures { result.now ≡ self.now.terminal.got }
    {
        self.terminal.response()
    }

    /// Why the terminal gave up, if it did.
    pub fn fault(&self) -> Option<Fault>
        ensures { result ≡ fault_of self.now.terminal }
    {
        self.terminal.fault()
    }

    /// Drops both ends, and returns the card.
    pub fn into_applet(self) -> C
        ensures { result ≡ self.card.card }
    {
        self.card.into_applet()
    }
}

/// The commands that `Ends::carry` has carried are a dialogue, once the terminal has stopped. The
/// card has carried out the first ones of them, in order, each once. Each answer is its response.
/// At most one command that it carried out has no answer, and the outcome in a fault is true. The
/// dialogue ends. On a line that is mild enough for the settings
/// (`laws::mild_lines_are_survived`) there is no fault.
pub fn carried_commands_are_a_dialogue<C: Applet>()
    ensures { (past : Past C.State) (passed : List Fates) (e : EndsOf C)
        → HasCarried C.Applet past passed e → has_stopped e.terminal.phase ≡ true
        → Conversed C.Applet past.settings past.first (C.standing e.card.card) past.commands
        past.answers (fault_of e.terminal) past.passed passed }
{}
