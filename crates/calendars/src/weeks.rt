// The working week, day 0 being a Monday.
ghost use Rattle.calendars.specs.Days.{weekday};

use market::Calendar;

const DAYS_A_WEEK: u32 = 7;

const WORKING_DAYS: u32 = 5;

// Monday to Friday work, except the holidays, which may come in any order.
#[derive(Clone, Copy, Debug, PartialEq, Eq)]
pub struct Week<'a> {
    pub holidays: &'a [u32],
}

impl<'a> Calendar for Week<'a> {
    ghost works = { λ s. weekday s.holidays.now };

    fn works(&self, day: u32) -> bool {
        day % DAYS_A_WEEK < WORKING_DAYS && !self.holidays.contains(&day)
    }
}
