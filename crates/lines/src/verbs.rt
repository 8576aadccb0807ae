// The words that a line can begin with.
ghost use Rattle.std.specs.Prelude.{◌≡◌, MatchOption, ◌≢◌};
ghost use Rattle.lines.specs.declared.verbs.Verb.{Verb as Word};
ghost use Rattle.lines.specs.Verbs.{name_of};

#[derive(Clone, Copy, Debug, PartialEq, Eq)]
pub(crate) enum Verb {
    Party,
    Link,
    Point,
    Initial,
    Advance,
    Take,
}

impl Verb {
    // The verb that is written so, byte by byte. A case for each word, by rule, and no other way to write one.
    pub(crate) fn from_name(name: &[u8]) -> Option<Verb>
        ensures { MatchOption result ((v : Word) → name.now ≢ name_of v) (λ v. name.now ≡ name_of v) }
    {
        match name {
            b"party" => Some(Verb::Party),
            b"link" => Some(Verb::Link),
            b"point" => Some(Verb::Point),
            b"initial" => Some(Verb::Initial),
            b"advance" => Some(Verb::Advance),
            b"take" => Some(Verb::Take),
            _ => None,
        }
    }
}
