// Lent bytes as places for notices, sixteen bytes for each; what is left over at the end belongs to none.
ghost use Rattle.std.specs.Prelude.{◌≡◌, ◌<◌, length, slice_set};
ghost use Rattle.market.specs.Codes.{bytes_of};
ghost use Rattle.outboxes.specs.Records.{records, with_code};

use crate::places::Places;
use market::Notice;

// How many bytes a notice takes.
const WIDTH: usize = 16;

#[derive(Drop)]
pub struct Cells<'a> {
    bytes: &'a mut [u8],
}

impl<'a> Cells<'a> {
    pub(crate) fn new(bytes: &'a mut [u8]) -> Self
        ensures { result.bytes.now ≡ bytes.old }
    {
        Cells { bytes }
    }
}

#[tactic(auto, using(crate::proofs::Written::cells))]
impl<'a> Places for Cells<'a> {
    ghost notices = { λ s. records s.bytes.now };

    fn len(&self) -> usize {
        self.bytes.len() / WIDTH
    }

    fn get(&self, place: usize) -> Notice {
        let bytes = &*self.bytes;
        let start = WIDTH * place;
        let mut code = [0; WIDTH];
        code.copy_from_slice(&bytes[start..start + WIDTH]);
        Notice::read(code)
    }

    // Its sixteen bytes stand between those before and those after, which stay.
    fn set(&mut self, place: usize, notice: Notice)
        requires { place < length (records self.old.bytes.now) }
        ensures notices { records self.new.bytes.now ≡ slice_set (records self.old.bytes.now) place notice }
        ensures bytes { self.new.bytes.now ≡ with_code self.old.bytes.now place (bytes_of notice) }
    {
        let start = WIDTH * place;
        let code = <[u8; WIDTH]>::from(notice);
        self.bytes[start..start + WIDTH].copy_from_slice(&code);
    }
}
