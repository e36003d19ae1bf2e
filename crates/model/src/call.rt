// The five calls that change something.
use kinds::operation::Operation;

// A call, with the transaction number that its caller chose.
#[derive(Clone, Copy, PartialEq, Eq, Debug)]
pub enum Call {
    Begin {
        number: u32,
        // 0 is none, as in the rules and at the root of the tables; `Some(0)` would say it twice.
        parent: u32,
    },
    Step {
        number: u32,
        object: u32,
        operation: Operation,
    },
    Commit {
        number: u32,
    },
    Abort {
        number: u32,
    },
    BreakDeadlock,
}
