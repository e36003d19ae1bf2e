// Rows that are a state's, and rows that are not.
use kinds::kind::Kind;
use kinds::operation::LARGEST;
use kinds::queue::Queue;
use kinds::roll::{Entry, Roll};
use kinds::short_list::ShortList;
use kinds::tally::Tally;
use std::process::Abort;

// Rows of a kind, and whether each is a state's.
fn read<K: Kind>(rt: &impl Abort, cases: &[(K::Row, bool)]) {
    for (row, good) in cases {
        assert_eq!(rt; K::from_row(*row).is_some(), *good);
    }
}

#[test]
fn rows_of_tallies(rt: HostRuntime) {
    read::<Tally>(&rt, &[(0, true), (LARGEST, true), (LARGEST + 1, false)]);
}

// A row that counts some of twelve places, of which the last three are given.
fn numbers(count: usize, [a, b, c]: [u32; 3]) -> ShortList<u32> {
    ShortList {
        count,
        places: [1, 1, 1, 1, 1, 1, 1, 1, 1, a, b, c],
    }
}

#[test]
fn rows_of_queues(rt: HostRuntime) {
    let cases = [
        (numbers(12, [1, 1, LARGEST]), true),
        (numbers(13, [1, 1, 1]), false),
        (numbers(12, [1, 1, LARGEST + 1]), false),
        (numbers(11, [1, 1, 0]), true),
        (numbers(11, [1, 1, 1]), false),
        (numbers(9, [0, 0, 0]), true),
        (numbers(9, [0, 1, 0]), false),
        (numbers(0, [0, 0, 0]), false),
    ];
    read::<Queue>(&rt, &cases);
}

// The same of a roll, where the first three are given. One function for both would take the places
// before and after the three, which is no plainer.
fn entries(count: usize, given: [(u32, u32); 3]) -> ShortList<Entry> {
    let [a, b, c] = given.map(|(key, number)| Entry { key, number });
    let blank = Entry { key: 0, number: 0 };
    ShortList {
        count,
        places: [
            a, b, c, blank, blank, blank, blank, blank, blank, blank, blank, blank,
        ],
    }
}

#[test]
fn rows_of_rolls(rt: HostRuntime) {
    let cases = [
        (entries(3, [(0, 0), (1, 5), (LARGEST, LARGEST)]), true),
        (entries(3, [(1, 0), (0, 0), (2, 0)]), false),
        (entries(3, [(1, 0), (2, 0), (2, 0)]), false),
        (entries(3, [(1, 0), (2, 0), (LARGEST + 1, 0)]), false),
        (entries(3, [(1, 0), (2, LARGEST + 1), (3, 0)]), false),
        (entries(2, [(1, 0), (2, 0), (0, 0)]), true),
        (entries(2, [(1, 0), (2, 0), (0, 1)]), false),
        (entries(4, [(1, 0), (2, 0), (3, 0)]), false),
        (entries(13, [(1, 0), (2, 0), (3, 0)]), false),
    ];
    read::<Roll>(&rt, &cases);
}
