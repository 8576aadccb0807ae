// Everything that a feed holds.
ghost use Rattle.std.specs.Prelude.{◌≡◌};
ghost use Rattle.desk.specs.Holdings.{Answered};
ghost use Rattle.desk.specs.Views.{holding_of};

use crate::replies::Reply;
use directory::PartyBook;
use engine::Engine;
use lines::{Command, accept};
use market::{Calendar, Outbox, Register};
use words::FaultReport;

// A register with its engine, an outbox, a directory and a calendar, and how many lines came. Register,
// outbox and calendar are held by value, or lent; the directory is lent.
#[derive(Drop)]
pub struct Desk<'a, 'b, 'c, R, O, C> {
    engine: Engine<R>,
    outbox: O,
    directory: &'a mut PartyBook<'b, 'c>,
    calendar: C,
    lines: u64,
}

impl<'a, 'b, 'c, R: Register, O: Outbox, C: Calendar> Desk<'a, 'b, 'c, R, O, C> {
    // A desk over the stores as they are, with its clock at 0, before its first line.
    pub fn new(register: R, outbox: O, directory: &'a mut PartyBook<'b, 'c>, calendar: C) -> Self
        ensures engine { (result.engine.register ≡ register) × (result.engine.clock ≡ 0) }
        ensures outbox { result.outbox ≡ outbox }
        ensures directory { result.directory.now ≡ directory.old }
        ensures calendar { result.calendar ≡ calendar }
        ensures lines { result.lines ≡ 0 }
    {
        Desk {
            engine: Engine::new(register),
            outbox,
            directory,
            calendar,
            lines: 0,
        }
    }

    // Does what the line says, and tells the reply. Any bytes are answered.
    pub fn line(&mut self, bytes: &[u8]) -> Reply
        ensures { Answered bytes.now (holding_of R.known O.queue self.old) result (holding_of R.known O.queue self.new) }
    {
        self.lines = self.lines.saturating_add(1);
        match accept(bytes) {
            Err(fault) => Reply::Fault(FaultReport {
                line: self.lines,
                fault,
            }),
            Ok(Command::Party(new)) => Reply::from(self.directory.add_party(new)),
            Ok(Command::Link(new)) => Reply::from(self.directory.add_link(new)),
            Ok(Command::Call(call)) => Reply::from(
                self.engine
                    .apply(&self.calendar, &*self.directory, &mut self.outbox, call),
            ),
        }
    }
}
