// What can be wrong with a field, with a line and with a feed: each holds the one below it whole.
ghost use Rattle.std.specs.Prelude.{◌≡◌, ◌++◌, Some, codes, decimal};
ghost use Rattle.words.specs.declared.faults.FeedFault.TheVariants.{Line};
ghost use Rattle.words.specs.declared.faults.LineFault.TheVariants.{Field};
ghost use Rattle.words.specs.Faults.{fault_number, fault_field, line_fault_of};

use std::fmt;

#[derive(Clone, Copy, Debug, PartialEq, Eq)]
pub enum FieldFault {
    // Not 1 to 13 digits. `place` counts a line's fields from 1.
    NotANumber { place: usize },
}

#[derive(Clone, Copy, Debug, PartialEq, Eq)]
pub enum LineFault {
    TooLong,
    UnknownWord,
    WrongCount,
    Field(FieldFault),
}

#[derive(Clone, Copy, Debug, PartialEq, Eq)]
pub enum FeedFault {
    Line(LineFault),
}

// By hand, here and below, so that a promise can name the fault that `?` makes.
impl From<FieldFault> for LineFault {
    ghost from_gives = { λ e r. r ≡ Field e };

    fn from(e: FieldFault) -> LineFault {
        LineFault::Field(e)
    }
}

impl From<LineFault> for FeedFault {
    ghost from_gives = { λ e r. r ≡ Line e };

    fn from(e: LineFault) -> FeedFault {
        FeedFault::Line(e)
    }
}

// The number that the fault is printed as. By cases: one of them holds the field's fault, so there is no
// discriminant to be cast.
impl From<LineFault> for u8 {
    ghost from_gives = { λ fault number. number ≡ fault_number fault };

    fn from(fault: LineFault) -> u8 {
        match fault {
            LineFault::Field(_) => 21,
            LineFault::UnknownWord => 22,
            LineFault::WrongCount => 23,
            LineFault::TooLong => 24,
        }
    }
}

impl LineFault {
    // The place of the field that is at fault. A fault of the whole line is printed with field 0.
    pub fn field(self) -> usize
        ensures { result ≡ fault_field self }
    {
        match self {
            LineFault::Field(FieldFault::NotANumber { place }) => place,
            _ => 0,
        }
    }
}

// A fault with the number of its line, from 1.
#[derive(Clone, Copy, Debug, PartialEq, Eq)]
pub struct FaultReport {
    pub line: u64,
    pub fault: FeedFault,
}

impl fmt::Display for FaultReport {
    ghost output = { λ x. Some (codes "line " ++ (decimal x.line ++ (codes " fault " ++ (decimal (fault_number (line_fault_of x.fault)) ++ (codes " field " ++ decimal (fault_field (line_fault_of x.fault))))))) };

    fn fmt<W: fmt::Write>(&self, f: &mut fmt::Formatter<W>) -> fmt::Result {
        let FeedFault::Line(fault) = self.fault;
        let (line, number, field) = (self.line, u8::from(fault), fault.field());
        write!(f, "line {line} fault {number} field {field}")
    }
}
