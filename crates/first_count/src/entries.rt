// The objects of the count, and what is entered on them.
ghost use Rattle.std.specs.Prelude.{◌≡◌, map};
ghost use Rattle.first_count.specs.Entering.{entry_of};
ghost use Rattle.first_count.specs.Opening.{held, opened};

use crate::enter::Then::{Keep, Undo};
use crate::enter::{Entry, Then};
use either::Either;
use kinds::join::Object;
use kinds::operation::Operation;
use kinds::queue::{FRONT, NEXT, PUT, Queue};
use kinds::roll::{FIND, MARK, Roll};
use kinds::tally::{ADD, SHOW, TAKE, Tally};

// The numbers of the objects, as entries and printed lines have them.
const FIRST: usize = 0;

const SECOND: usize = 1;

const QUEUE: usize = 2;

const ROLL: usize = 3;

// Two tallies in hundredths of a vote, the queue of doubtful bundles and the roll of members who
// voted.
#[tactic(auto, unfolding(kinds::specs::Rows::checked))]
pub(crate) fn opening() -> [Object; 4]
    ensures { map held result ≡ opened }
{
    [
        Either::Left(Tally::new(120_000).unwrap()),
        Either::Left(Tally::new(0).unwrap()),
        Either::Right(Either::Left(Queue::new())),
        Either::Right(Either::Right(Roll::new())),
    ]
}

// An operation entered on an object.
fn entered(object: usize, operation: Operation, then: Then) -> Entry
    ensures { result ≡ entry_of object operation then }
{
    Entry {
        object,
        operation,
        then,
    }
}

// One bundle of papers: votes credited and corrected, a correction that is refused, doubtful
// bundles put by and taken up, members marked, two marks undone, and a word that the object does
// not know.
pub(crate) fn entries() -> [Entry; 19] {
    [
        entered(FIRST, Operation::new(ADD, 2_500, 0), Keep),
        entered(SECOND, Operation::new(ADD, 1_900, 0), Keep),
        entered(FIRST, Operation::new(TAKE, 100, 0), Keep),
        entered(SECOND, Operation::new(ADD, 100, 0), Keep),
        entered(SECOND, Operation::new(TAKE, 5_000, 0), Keep),
        entered(SECOND, Operation::new(SHOW, 0, 0), Keep),
        entered(QUEUE, Operation::new(PUT, 17, 0), Keep),
        entered(QUEUE, Operation::new(PUT, 23, 0), Keep),
        entered(QUEUE, Operation::new(FRONT, 0, 0), Keep),
        entered(QUEUE, Operation::new(NEXT, 0, 0), Keep),
        entered(ROLL, Operation::new(MARK, 118, 1), Keep),
        entered(ROLL, Operation::new(MARK, 42, 1), Keep),
        entered(ROLL, Operation::new(MARK, 118, 2), Keep),
        entered(ROLL, Operation::new(FIND, 118, 0), Keep),
        entered(ROLL, Operation::new(MARK, 77, 1), Undo),
        entered(ROLL, Operation::new(FIND, 77, 0), Keep),
        entered(ROLL, Operation::new(MARK, 42, 9), Undo),
        entered(ROLL, Operation::new(FIND, 42, 0), Keep),
        entered(QUEUE, Operation::new(ADD, 50, 0), Keep),
    ]
}
