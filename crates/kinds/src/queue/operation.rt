// The operations that a queue knows, and what undoes one.
ghost use Rattle.std.specs.Prelude.{◌≡◌};
ghost use Rattle.kinds.specs.Queues.{queue_operation};
ghost use Rattle.std.specs.Result.{result_ok};

use crate::number::Number;
use crate::operation::{Operation, UnknownOperation};

// The codes by which an `Operation`, which is plain numbers, names them.
pub const FRONT: u32 = 12;

pub const PUT: u32 = 13;

pub const NEXT: u32 = 14;

// FRONT tells the front entry, PUT adds one at the back, NEXT takes the front one out.
#[derive(Clone, Copy, PartialEq, Eq, Debug)]
pub enum QueueOperation {
    Front,
    Put(Number),
    Next,
}

// What a write moved: nothing, an entry to the back, or this entry from the front.
#[derive(Clone, Copy, PartialEq, Eq, Debug)]
pub enum EndMove {
    Stayed,
    BackJoined,
    FrontLeft(u32),
}

impl TryFrom<Operation> for QueueOperation {
    type Error = UnknownOperation;

    ghost try_from_gives = { λ o r. result_ok r ≡ queue_operation o };

    // The operation that a code and its numbers stand for, if a queue knows it.
    fn try_from(operation: Operation) -> Result<QueueOperation, UnknownOperation> {
        let known = match operation.code {
            FRONT => operation.numbers(0).map(|_| QueueOperation::Front),
            PUT => operation.numbers(1).map(|(n, _)| QueueOperation::Put(n)),
            NEXT => operation.numbers(0).map(|_| QueueOperation::Next),
            _ => None,
        };
        known.ok_or(UnknownOperation)
    }
}
