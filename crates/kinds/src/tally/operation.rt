// The operations that a tally knows.
ghost use Rattle.std.specs.Prelude.{◌≡◌};
ghost use Rattle.kinds.specs.Tallies.{tally_operation};
ghost use Rattle.std.specs.Result.{result_ok};

use crate::number::Number;
use crate::operation::{Operation, UnknownOperation};

// The codes by which an `Operation`, which is plain numbers, names them.
pub const SHOW: u32 = 1;

pub const ADD: u32 = 2;

pub const TAKE: u32 = 3;

// SHOW tells the value, ADD and TAKE change it by their number.
#[derive(Clone, Copy, PartialEq, Eq, Debug)]
pub enum TallyOperation {
    Show,
    Add(Number),
    Take(Number),
}

impl TryFrom<Operation> for TallyOperation {
    type Error = UnknownOperation;

    ghost try_from_gives = { λ o r. result_ok r ≡ tally_operation o };

    // The operation that a code and its numbers stand for, if a tally knows it.
    fn try_from(operation: Operation) -> Result<TallyOperation, UnknownOperation> {
        let known = match operation.code {
            SHOW => operation.numbers(0).map(|_| TallyOperation::Show),
            ADD => operation.numbers(1).map(|(n, _)| TallyOperation::Add(n)),
            TAKE => operation.numbers(1).map(|(n, _)| TallyOperation::Take(n)),
            _ => None,
        };
        known.ok_or(UnknownOperation)
    }
}
