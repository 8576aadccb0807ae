// A calendar with a bit for each day.
ghost use Rattle.calendars.specs.Bits.{marked};

use market::Calendar;

const DAYS_A_BYTE: u32 = 8;

// A day works if its bit is set: the first byte has days 0 to 7, the lowest bit being day 0. Days past the
// bytes do not work.
#[derive(Clone, Copy, Debug, PartialEq, Eq)]
pub struct Bits<'a> {
    pub bytes: &'a [u8],
}

impl<'a> Calendar for Bits<'a> {
    ghost works = { λ s. marked s.bytes.now };

    fn works(&self, day: u32) -> bool {
        // A cast, which loses nothing: there is no `From` between these types.
        let at = (day / DAYS_A_BYTE) as usize;
        self.bytes
            .get(at)
            .is_some_and(|byte| (byte >> (day % DAYS_A_BYTE)) % 2 == 1)
    }
}
