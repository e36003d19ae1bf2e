// What an operation is to an object, and what comes of it.
ghost use Rattle.std.specs.Prelude.{◌≡◌};
ghost use Rattle.kinds.specs.Outcomes.{yes_to, no_to};

// An operation's answer: `Some` is yes with a number, `None` is no.
pub type Answer = Option<u32>;

// What an operation is to an object. Three words, and no `Option` of read or write: unknown is a
// class of its own in the rules, and `None` would hide its name.
#[derive(Clone, Copy, PartialEq, Eq, Debug)]
pub enum Class {
    Unknown,
    Read,
    Write,
}

// What an operation answers, and the state that it leaves.
#[derive(Clone, Copy)]
pub struct Outcome<S> {
    pub answer: Answer,
    pub next: S,
}

impl<S> Outcome<S> {
    // Yes with a number, and the state after it.
    pub(crate) fn yes(number: u32, next: S) -> Outcome<S>
        ensures { result ≡ yes_to number next }
    {
        Outcome {
            answer: Some(number),
            next,
        }
    }

    // No, and the state as it was.
    pub(crate) fn no(state: S) -> Outcome<S>
        ensures { result ≡ no_to state }
    {
        Outcome {
            answer: None,
            next: state,
        }
    }

    // The same answer, and the state put another way.
    pub(crate) fn map<T, F: FnOnce(S) -> T>(self, put: F) -> Outcome<T>
        requires { F.pre put self.next }
        ensures answer { result.answer ≡ self.answer }
        ensures next { F.post put self.next result.next }
    {
        Outcome {
            answer: self.answer,
            next: put(self.next),
        }
    }
}
