// The operations that a roll knows.
ghost use Rattle.std.specs.Prelude.{◌≡◌};
ghost use Rattle.kinds.specs.Rolls.{roll_operation};
ghost use Rattle.std.specs.Result.{result_ok};

use crate::number::Number;
use crate::operation::{Operation, UnknownOperation};

// The codes by which an `Operation`, which is plain numbers, names them.
pub const FIND: u32 = 21;

pub const MARK: u32 = 22;

// FIND tells the number of a key, MARK sets it.
#[derive(Clone, Copy, PartialEq, Eq, Debug)]
pub enum RollOperation {
    Find(Number),
    Mark(Number, Number),
}

impl TryFrom<Operation> for RollOperation {
    type Error = UnknownOperation;

    ghost try_from_gives = { λ o r. result_ok r ≡ roll_operation o };

    // The operation that a code and its numbers stand for, if a roll knows it.
    fn try_from(operation: Operation) -> Result<RollOperation, UnknownOperation> {
        let known = match operation.code {
            FIND => operation
                .numbers(1)
                .map(|(key, _)| RollOperation::Find(key)),
            MARK => operation
                .numbers(2)
                .map(|(key, number)| RollOperation::Mark(key, number)),
            _ => None,
        };
        known.ok_or(UnknownOperation)
    }
}
