// What a call is told, and what a question is.
use kinds::answer::Answer;

// What a call is told that is not refused; a refusal is an `EngineFault`.
#[derive(Clone, Copy, PartialEq, Eq, Debug)]
pub enum Reply {
    Accepted,
    Answered(Answer),
    Waits,
    // The transaction aborted to break a deadlock; none where nobody is deadlocked.
    Victim(Option<u32>),
}

// What a transaction number is in use for.
#[derive(Clone, Copy, PartialEq, Eq, Debug)]
pub enum Condition {
    Free,
    Waiting,
    Open,
}

// How many transactions hold each lock of an object. One with both counts in both.
#[derive(Clone, Copy, PartialEq, Eq, Debug)]
pub struct LockCounts {
    pub readers: u32,
    pub writers: u32,
}
