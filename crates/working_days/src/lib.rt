//! The n-th working day after a day, in any calendar.
#![tactic(auto)]

ghost use Rattle.working_days.specs.Days.{FoundNth};

use market::Calendar;

// How many days after a day are looked at.
pub const DAYS_AHEAD: u32 = 28;

// The n-th working day after `day`, which itself never counts, or nothing where there is none among the
// days looked at. Days whose number does not fit 32 bits are not looked at.
pub fn nth_working_day<C: Calendar>(calendar: &C, day: u32, n: u32) -> Option<u32>
    ensures { FoundNth (C.works calendar.now) day n result }
{
    if n == 0 {
        return None;
    }
    let last = day.saturating_add(DAYS_AHEAD);
    let mut count = 0;
    // A loop, since a chain of `filter` and `nth` takes twice the time; and by the day before the one looked
    // at, since the day after `last` may not fit.
    for before in day..last {
        let next = before + 1;
        if calendar.works(next) {
            count += 1;
            if count == n {
                return Some(next);
            }
        }
    }
    None
}
