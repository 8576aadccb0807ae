// Places for notices, each of which can be read and written.
ghost use Rattle.std.specs.Prelude.{◌≡◌, ◌<◌, List, Some, length, slice_get, slice_set};
ghost use Rattle.market.specs.declared.notices.Notice.{Notice as Noted};

use market::Notice;

pub(crate) trait Places {
    ghost notices: { Self → List Noted };

    // How many there are.
    fn len(&self) -> usize
        ensures { result ≡ length (notices self.now) };

    fn get(&self, place: usize) -> Notice
        requires { place < length (notices self.now) }
        ensures { slice_get (notices self.now) place ≡ Some result };

    fn set(&mut self, place: usize, notice: Notice)
        requires { place < length (notices self.old) }
        ensures { notices self.new ≡ slice_set (notices self.old) place notice };
}
