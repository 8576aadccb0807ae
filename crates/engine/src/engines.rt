// The engine: a register that it alone changes, a clock, and the calls. Each call checks its rows in
// the table's order, and then makes its change, whole.
ghost use Rattle.std.specs.Prelude.{◌≡◌, ◌^◌, true, is_some, Option as Maybe};
ghost use Rattle.market.specs.Stores.{Queue, Parties};
ghost use Rattle.rules.specs.Owing.{listed};
ghost use Rattle.rules.specs.Rows.{first_of, passing};
ghost use Rattle.rules.specs.declared.steps.Step.{Step as Stepping};
ghost use Rattle.agenda.specs.Earliest.{Earliest};
ghost use Rattle.engine.specs.Effects.{creating, changing, advancing};
ghost use Rattle.engine.specs.Outcome.{Outcome, Accepted, Passes, Settled};
ghost use Rattle.engine.specs.Table.{overdue, newcomer};
ghost use Rattle.engine.specs.State.{state_of, view_of};

use crate::calls::{Answer, Call};
use crate::settling::post;
use agenda::earliest;
use market::{
    Calendar, Directory, NewPoint, NewRequest, NoticeKind, Outbox, Point, Refusal, Register,
};
use rules::{Asked, Audience, Mailing, Owed, Step, limits, rows};

// It has the register and the clock. Outbox and directory are handed to each call that wants them, which may be
// others every time, so a promise speaks of the engine beside an outbox.
#[derive(Drop)]
pub struct Engine<R> {
    register: R,
    clock: u32,
}

impl<R: Register> Engine<R> {
    // An engine over the register as it is, with its clock at 0.
    pub fn new(register: R) -> Self
        ensures register { result.register ≡ register }
        ensures clock { result.clock ≡ 0 }
    {
        Engine { register, clock: 0 }
    }

    // Row 3: a step of some point is due.
    fn nothing_due(&self) -> Result<(), Refusal>
        ensures { (e : Maybe Stepping) × Earliest (R.known self.now.register).look self.now.clock (2 ^ 64) e × (result ≡ passing (first_of (overdue e))) }
    {
        match earliest(&self.register, u64::from(self.clock)) {
            Some(_) => Err(Refusal::StepDue),
            None => Ok(()),
        }
    }

    // Joins a new point, unless its number is there or has no place.
    fn admit(&mut self, point: Point) -> Result<Answer, Refusal>
        ensures { (q : Queue) → Passes (newcomer (state_of R.known self.old q) point) (state_of R.known self.old q) result (state_of R.known self.new q) (Accepted (creating point self.old.clock) (state_of R.known self.old q) result (state_of R.known self.new q)) }
    {
        self.register.add(point)?;
        Ok(Answer::Done)
    }

    // Creates a point, with nobody registered. Whatever the directory says and the outbox holds.
    pub fn create(&mut self, new: NewPoint) -> Result<Answer, Refusal>
        ensures { (w : Parties) (q : Queue) → Outcome (Call.Create new) w (state_of R.known self.old q) result (state_of R.known self.new q) }
    {
        let point = limits::new_point(new)?;
        self.nothing_due()?;
        self.admit(point)
    }

    // Stores the point and sends the notices where there is room for all of them; else neither.
    fn settle<O: Outbox>(
        &mut self,
        outbox: &mut O,
        point: Point,
        owed: Owed,
        clock: u32,
        answer: Answer,
    ) -> Result<Answer, Refusal>
        requires { is_some ((R.known self.old.register).look point.number) ≡ true }
        ensures { Settled (changing point (listed owed) clock answer) (view_of R.known O.queue self.old outbox.old) result (view_of R.known O.queue self.new outbox.new) }
    {
        let notices = owed.as_slice();
        if outbox.free() < notices.len() {
            return Err(Refusal::OutboxFull);
        }
        // The point is not absent: it is there already.
        let _ = self.register.replace(point);
        post(outbox, notices);
        self.clock = clock;
        Ok(answer)
    }

    // Requests the supply of a point that has no supplier.
    pub fn initial<D: Directory, O: Outbox>(
        &mut self,
        directory: &D,
        outbox: &mut O,
        new: NewRequest,
    ) -> Result<Answer, Refusal>
        ensures { Outcome (Call.Initial new) (D.parties directory.now) (view_of R.known O.queue self.old outbox.old) result (view_of R.known O.queue self.new outbox.new) }
    {
        let asked = Asked::try_from(new)?;
        self.nothing_due()?;
        let point = self.register.read(asked.point).ok_or(Refusal::NoSuchPoint)?;
        let clock = self.clock;
        rows::check_initial(directory, clock, point, asked)?;
        let request = Some(asked.initial_request());
        let mailing = Mailing {
            kind: NoticeKind::Confirmed,
            audience: Audience::Confirmation,
            point,
            request,
            moment: clock,
        };
        self.settle(
            outbox,
            Point { request, ..point },
            mailing.owed(),
            clock,
            Answer::Done,
        )
    }

    // Does a step that was found, or has the clock reach the moment where none was.
    fn proceed<O: Outbox>(
        &mut self,
        outbox: &mut O,
        next: Option<Step>,
        moment: u32,
    ) -> Result<Answer, Refusal>
        requires { Earliest (R.known self.old.register).look moment (2 ^ 64) next }
        ensures { Settled (advancing moment self.old.clock next) (view_of R.known O.queue self.old outbox.old) result (view_of R.known O.queue self.new outbox.new) }
    {
        let Some(step) = next else {
            self.clock = moment;
            return Ok(Answer::Reached(moment));
        };
        // A cast, since it loses nothing: the step is not after the moment. `try_from` would seem to fail.
        let due = step.moment as u32;
        let clock = self.clock.max(due);
        let answer = Answer::Stepped {
            point: step.point.number,
            turn: step.turn,
            moment: due,
        };
        self.settle(outbox, step.done(), step.owed(clock), clock, answer)
    }

    // Does the earliest step up to the moment, or else has the clock reach it. Whatever the directory says.
    pub fn advance<O: Outbox>(&mut self, outbox: &mut O, moment: u64) -> Result<Answer, Refusal>
        ensures { (w : Parties) → Outcome (Call.Advance moment) w (view_of R.known O.queue self.old outbox.old) result (view_of R.known O.queue self.new outbox.new) }
    {
        let moment = limits::moment(moment)?;
        if moment < self.clock {
            return Err(Refusal::BeforeClock);
        }
        let next = earliest(&self.register, u64::from(moment));
        self.proceed(outbox, next, moment)
    }

    // Hands out the oldest notice. Whatever the directory says.
    pub fn take<O: Outbox>(&mut self, outbox: &mut O) -> Result<Answer, Refusal>
        ensures { (w : Parties) → Outcome Call.Take w (view_of R.known O.queue self.old outbox.old) result (view_of R.known O.queue self.new outbox.new) }
    {
        Ok(Answer::Taken(outbox.take()))
    }

    // Any call, whatever its numbers.
    pub fn apply<C: Calendar, D: Directory, O: Outbox>(
        &mut self,
        _calendar: &C,
        directory: &D,
        outbox: &mut O,
        call: Call,
    ) -> Result<Answer, Refusal>
        ensures { Outcome call (D.parties directory.now) (view_of R.known O.queue self.old outbox.old) result (view_of R.known O.queue self.new outbox.new) }
    {
        match call {
            Call::Create(new) => self.create(new),
            Call::Initial(new) => self.initial(directory, outbox, new),
            Call::Advance { moment } => self.advance(outbox, moment),
            Call::Take => self.take(outbox),
        }
    }
}
