// One operation entered on one object, and undone again where that is asked.
ghost use Rattle.std.specs.Prelude.{◌≡◌, slice_get, Some, MatchResult, OnErr};
ghost use Rattle.first_count.specs.Telling.{refusal_text};
ghost use Rattle.first_count.specs.Entering.{reply_of, state_after, told, objects_after};

use kinds::answer::{Answer, Class};
use kinds::kind::Kind;
use kinds::operation::Operation;
use std::error::Error;
use std::fmt;

// What becomes of an operation right after it was done.
#[derive(Clone, Copy, PartialEq, Eq, Debug)]
pub enum Then {
    Keep,
    Undo,
}

// An operation on the object of a number.
#[derive(Clone, Copy)]
pub struct Entry {
    pub object: usize,
    pub operation: Operation,
    pub then: Then,
}

// What an object replies to an entry.
#[derive(Clone, Copy, PartialEq, Eq, Debug)]
pub enum Reply {
    Answered(Answer),
    Undone(Answer),
}

// Why an entry changes nothing.
#[derive(Clone, Copy, PartialEq, Eq, Debug)]
pub enum Refusal {
    NoObject,
    Unknown,
}

impl fmt::Display for Refusal {
    ghost output = { λ refusal. Some (refusal_text refusal) };

    fn fmt<W: fmt::Write>(&self, f: &mut fmt::Formatter<W>) -> fmt::Result {
        match self {
            Refusal::NoObject => write!(f, "no such object"),
            Refusal::Unknown => write!(f, "unknown"),
        }
    }
}

impl Error for Refusal {}

// What an object replies to an entry, and its state after.
fn perform<K: Kind>(state: K, entry: Entry) -> Result<(Reply, K), Refusal>
    ensures reply { let class = K.classed state «entry».operation in
        let told = reply_of class «entry».then (K.acts state «entry».operation).answer in
        MatchResult result (λ done. told ≡ Ok done.0) (λ refusal. told ≡ Err refusal) }
    ensures after { let next = state_after «entry».then state (K.acts state «entry».operation) in
        MatchResult result (λ done. next ≡ done.1) (λ _. next ≡ state) }
{
    let operation = entry.operation;
    let done = state.act(operation);
    match state.class(operation) {
        Class::Unknown => Err(Refusal::Unknown),
        Class::Write if entry.then == Then::Undo => {
            let record = state.undo_record(operation);
            Ok((Reply::Undone(done.answer), done.next.undo(record)))
        }
        Class::Read | Class::Write => Ok((Reply::Answered(done.answer), done.next)),
    }
}

// An entry on one of some objects; the others stay, and where it is refused all do.
#[tactic(auto, using(std::proofs::lemmas::Option::slice_get_read, crate::proofs::Lists::written_back))]
pub(crate) fn enter<K: Kind>(objects: &mut [K], entry: Entry) -> Result<Reply, Refusal>
    ensures reply { result ≡ told K.classed K.acts «entry» (slice_get objects.old «entry».object) }
    ensures after { let object = slice_get objects.old «entry».object in
        objects.new ≡ objects_after K.acts «entry» object objects.old }
    ensures err { OnErr result (objects.new ≡ objects.old) }
{
    let at = entry.object;
    let object = *objects.get(at).ok_or(Refusal::NoObject)?;
    let (reply, next) = perform(object, entry)?;
    objects[at] = next;
    Ok(reply)
}
