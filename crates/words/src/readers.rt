// A reader over a line, which hands out the line's words as parts of it.
ghost use Rattle.std.specs.Prelude.{◌≡◌, ◌+◌, ◌≤◌, [], ◌∷◌, length, take, drop, filter, position, IfSome, IfNone, Some, ◌==◌};
ghost use Rattle.std.specs.Option.{ForSome};
ghost use Rattle.words.specs.Words.{words};

// A word, as the part of its line that starts at `place`.
#[derive(Clone, Copy, Debug, PartialEq, Eq)]
pub struct Word<'a> {
    pub place: usize,
    pub text: &'a [u8],
}

// `at` is where the next word starts, and None after the last word.
#[derive(Clone, Copy, Debug)]
pub struct Reader<'a> {
    line: &'a [u8],
    at: Option<usize>,
    ghost within: { ForSome at (λ place. place ≤ length line.now) },
}

// The index of the first space.
fn first_space(s: &[u8]) -> Option<usize>
    ensures { result ≡ position (λ b. b == 32) s.now }
{
    s.iter().position(|b| *b == b' ')
}

// How many spaces there are, or `most` where there are more; it looks no further than at so many.
fn count_spaces(s: &[u8], most: usize) -> usize
    ensures count { result ≡ length (take most (filter (λ b. b == 32) s.now)) }
    ensures within { result ≤ length s.now }
{
    s.iter().filter(|b| **b == b' ').take(most).count()
}

impl<'a> Reader<'a> {
    ghost use Rattle.words.specs.Readers.{unread};

    // A reader at the line's first word.
    pub fn over(line: &'a [u8]) -> Reader<'a>
        ensures line { result.line.now ≡ line.now }
        ensures start { result.at ≡ Some 0 }
        ensures words { unread result ≡ words line.now }
    {
        Reader { line, at: Some(0) }
    }

    // The next word, and what of the line is left after it: a pair of them, by rule.
    #[tactic(auto, using(crate::proofs::Splits::last, crate::proofs::Splits::next))]
    pub fn step(&mut self) -> Option<(Word<'a>, &'a [u8])>
        ensures same { self.new.line.now ≡ self.old.line.now }
        ensures none { IfNone result (unread self.old ≡ []) }
        ensures ended { IfNone result (unread self.new ≡ []) }
        ensures words { IfSome result (λ p. unread self.old
            ≡ p.0.text.now ∷ unread self.new) }
        ensures place { IfSome result (λ p. self.old.at ≡ Some p.0.place) }
        ensures text { IfSome result (λ p. p.0.text.now
            ≡ take (length p.0.text.now) (drop p.0.place self.old.line.now)) }
        ensures rest { IfSome result (λ p. p.1.now
            ≡ drop (p.0.place + length p.0.text.now + 1) self.old.line.now) }
    {
        let place = self.at?;
        let rest = &self.line[place..];
        let Some(end) = first_space(rest) else {
            self.at = None;
            return Some((Word { place, text: rest }, &rest[rest.len()..]));
        };
        self.at = Some(place + end + 1);
        let text = &rest[..end];
        Some((Word { place, text }, &rest[end + 1..]))
    }

    // How many words are left, or one more than `most` where there are more: one more than spaces from the
    // cursor on.
    #[tactic(auto, using(crate::proofs::Splits::counted))]
    fn count_left(&self, most: usize) -> usize
        ensures { result ≡ length (take (most + 1) (unread self.now)) }
    {
        match self.at {
            Some(at) => count_spaces(&self.line[at..], most) + 1,
            None => 0,
        }
    }

    // Whether exactly so many words are left. It looks no further than at one more.
    pub fn has_left(&self, count: usize) -> bool
        ensures { result ≡ (length (unread self.now) == count) }
    {
        self.count_left(count) == count
    }
}
