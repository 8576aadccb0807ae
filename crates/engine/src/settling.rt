// A change with its notices: all of it, or none.
ghost use Rattle.std.specs.Prelude.{◌≡◌, ◌-◌, ◌≤◌, ◌++◌, length};

use market::{Notice, Outbox};

// Puts the notices, for which there is room, at the end of the outbox.
pub(crate) fn post<O: Outbox>(outbox: &mut O, notices: &[Notice])
    requires { length notices.now ≤ (O.queue outbox.old).room }
    ensures waiting { (O.queue outbox.new).waiting ≡ (O.queue outbox.old).waiting ++ notices.now }
    ensures room { (O.queue outbox.new).room ≡ (O.queue outbox.old).room - length notices.now }
    ensures size { (O.queue outbox.new).size ≡ (O.queue outbox.old).size }
{
    for notice in notices {
        // It is not full: there is room for each of them.
        let _ = outbox.put(*notice);
    }
}
