// The edges of each kind: operations in order, with the answers that they must get.
use either::Either;
use kinds::answer::Class;
use kinds::join::Object;
use kinds::kind::Kind;
use kinds::operation::{LARGEST, Operation};
use kinds::queue::{FRONT, NEXT, PUT, Queue};
use kinds::roll::{FIND, MARK, Roll};
use kinds::tally::{ADD, SHOW, TAKE, Tally};
use std::process::Abort;

// What must come of an operation.
#[derive(Clone, Copy)]
enum Expected {
    Unknown,
    No,
    Yes(u32),
}

#[derive(Clone, Copy)]
struct Case {
    operation: Operation,
    expected: Expected,
}

impl Case {
    fn new(code: u32, first: u32, second: u32, expected: Expected) -> Case {
        let operation = Operation::new(code, first, second);
        Case {
            operation,
            expected,
        }
    }
}

// A row of a table has the code and the numbers as they are: an `Operation` in each is no plainer
// where there are so many.
fn yes(code: u32, first: u32, second: u32, number: u32) -> Case {
    Case::new(code, first, second, Expected::Yes(number))
}

fn no(code: u32, first: u32, second: u32) -> Case {
    Case::new(code, first, second, Expected::No)
}

fn unknown(code: u32, first: u32, second: u32) -> Case {
    Case::new(code, first, second, Expected::Unknown)
}

// One case. A write is done, undone and done again, so that an undo that does not restore shows later on.
fn perform<K: Kind>(rt: &impl Abort, state: K, case: Case) -> K {
    let operation = case.operation;
    let class = state.class(operation);
    let expected = match case.expected {
        Expected::Unknown => {
            assert_eq!(rt; class, Class::Unknown, "must be unknown");
            return state;
        }
        Expected::No => None,
        Expected::Yes(number) => Some(number),
    };
    assert_ne!(rt; class, Class::Unknown, "must be known");
    let done = state.act(operation);
    assert_eq!(rt; done.answer, expected);
    if class == Class::Read {
        return done.next;
    }
    let back = done.next.undo(state.undo_record(operation));
    let again = back.act(operation);
    assert_eq!(rt; again.answer, expected, "after an undo");
    again.next
}

fn drive<K: Kind>(rt: &impl Abort, start: K, cases: &[Case]) -> K {
    cases
        .iter()
        .fold(start, |state, case| perform(rt, state, *case))
}

#[test]
fn tally_from_0_to_the_largest(rt: HostRuntime) {
    assert!(rt; Tally::new(LARGEST + 1).is_none());
    let start = Tally::new(LARGEST - 1).expect(&rt, "in range");
    let end = drive(
        &rt,
        start,
        &[
            yes(ADD, 1, 0, LARGEST),
            no(ADD, 1, 0),
            yes(ADD, 0, 0, LARGEST),
            no(ADD, LARGEST, 0),
            yes(TAKE, LARGEST, 0, 0),
            no(TAKE, 1, 0),
            yes(TAKE, 0, 0, 0),
            yes(SHOW, 0, 0, 0),
            unknown(ADD, LARGEST + 1, 0),
            unknown(ADD, 1, 1),
            unknown(SHOW, 1, 0),
            unknown(0, 0, 0),
            unknown(4, 0, 0),
            yes(ADD, LARGEST, 0, LARGEST),
        ],
    );
    assert_eq!(rt; end.row(), LARGEST);
}

#[test]
fn queue_from_0_to_12_entries(rt: HostRuntime) {
    let mut queue = drive(
        &rt,
        Queue::new(),
        &[
            no(FRONT, 0, 0),
            no(NEXT, 0, 0),
            unknown(PUT, 1, 1),
            unknown(NEXT, 1, 0),
        ],
    );
    for n in 0..12 {
        queue = perform(&rt, queue, yes(PUT, LARGEST - n, 0, n + 1));
    }
    let mut rest = drive(
        &rt,
        queue,
        &[
            no(PUT, 5, 0),
            yes(FRONT, 0, 0, LARGEST),
            yes(NEXT, 0, 0, LARGEST),
            yes(PUT, 0, 0, 12),
            no(PUT, 0, 0),
        ],
    );
    for n in 1..12 {
        rest = perform(&rt, rest, yes(NEXT, 0, 0, LARGEST - n));
    }
    let end = drive(
        &rt,
        rest,
        &[yes(NEXT, 0, 0, 0), no(NEXT, 0, 0), yes(PUT, 7, 0, 1)],
    );
    assert_eq!(rt; end.row().count, 1);
}

#[test]
fn roll_from_0_to_12_keys(rt: HostRuntime) {
    let mut roll = drive(
        &rt,
        Roll::new(),
        &[
            no(FIND, 0, 0),
            yes(MARK, LARGEST, 1, 0),
            yes(MARK, 0, LARGEST, 0),
            yes(FIND, 0, 0, LARGEST),
            yes(MARK, LARGEST, 0, 1),
            yes(FIND, LARGEST, 0, 0),
            unknown(FIND, 0, 1),
            unknown(MARK, LARGEST + 1, 0),
            unknown(MARK, 0, LARGEST + 1),
        ],
    );
    for n in 1..11 {
        roll = perform(&rt, roll, yes(MARK, 100 - n, n, 0));
    }
    let full = drive(
        &rt,
        roll,
        &[
            no(MARK, 50, 1),
            no(FIND, 50, 0),
            yes(MARK, 95, 7, 5),
            yes(MARK, 0, 3, LARGEST),
            yes(FIND, 90, 0, 10),
            no(MARK, 1, 1),
        ],
    );
    let row = full.row();
    assert_eq!(rt; row.count, 12);
    assert_eq!(rt; row.places[0].key, 0);
    assert_eq!(rt; row.places[1].key, 90);
    assert_eq!(rt; row.places[11].key, LARGEST);
}

#[test]
fn joined_objects_know_their_own_words(rt: HostRuntime) {
    let tally: Object = Either::Left(Tally::new(5).expect(&rt, "in range"));
    let queue: Object = Either::Right(Either::Left(Queue::new()));
    let roll: Object = Either::Right(Either::Right(Roll::new()));
    drive(
        &rt,
        tally,
        &[
            yes(ADD, 5, 0, 10),
            unknown(PUT, 1, 0),
            unknown(FIND, 1, 0),
            yes(SHOW, 0, 0, 10),
        ],
    );
    drive(
        &rt,
        queue,
        &[
            yes(PUT, 5, 0, 1),
            unknown(ADD, 1, 0),
            unknown(MARK, 1, 1),
            yes(FRONT, 0, 0, 5),
        ],
    );
    drive(
        &rt,
        roll,
        &[
            yes(MARK, 5, 6, 0),
            unknown(SHOW, 0, 0),
            unknown(NEXT, 0, 0),
            yes(FIND, 5, 0, 6),
        ],
    );
}
