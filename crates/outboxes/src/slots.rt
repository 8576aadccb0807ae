// Lent notices as places.
ghost use Rattle.std.specs.Prelude.{◌≡◌};

use crate::places::Places;
use market::Notice;

#[derive(Drop)]
pub struct Slots<'a> {
    places: &'a mut [Notice],
}

impl<'a> Slots<'a> {
    pub(crate) fn new(places: &'a mut [Notice]) -> Self
        ensures { result.places.now ≡ places.old }
    {
        Slots { places }
    }
}

impl<'a> Places for Slots<'a> {
    ghost notices = { λ s. s.places.now };

    fn len(&self) -> usize {
        self.places.len()
    }

    fn get(&self, place: usize) -> Notice {
        self.places[place]
    }

    fn set(&mut self, place: usize, notice: Notice) {
        self.places[place] = notice;
    }
}
