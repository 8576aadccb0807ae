// A short list of notices: at most one to a role.
ghost use Rattle.std.specs.Prelude.{◌≡◌, ◌<◌, ◌≤◌, [], ◌∷◌, ◌++◌, length};

use market::Notice;

// The notices stand first. No ArrayVec, which is not Copy; and no Model, which a Copy struct has only where its
// value gives the fields back.
#[derive(Clone, Copy, Debug, PartialEq, Eq)]
pub struct Owed {
    notices: [Notice; 13],
    count: usize,
    ghost few: { count ≤ 13 },
}

impl Owed {
    ghost use Rattle.rules.specs.Owing.{listed};

    pub fn none() -> Owed
        ensures { listed result ≡ [] }
    {
        Owed {
            notices: [Notice::BLANK; 13],
            count: 0,
        }
    }

    pub(crate) fn push(&mut self, notice: Notice)
        requires { length (listed self.old) < 13 }
        ensures { listed self.new ≡ listed self.old ++ notice ∷ [] }
    {
        let count = self.count;
        self.notices[count] = notice;
        self.count = count + 1;
    }

    pub fn as_slice(&self) -> &[Notice]
        ensures { result.now ≡ listed self.now }
    {
        &self.notices[..self.count]
    }
}
