// Victim policies: which deadlocked transaction is aborted.
ghost use Rattle.std.specs.Prelude.{◌≡◌, Bool};
ghost use Rattle.model.specs.declared.facts.Facts.{Facts};
ghost use Rattle.model.specs.Policies.{Order, youngest, lightest};
ghost use Rattle.std.proofs.Common.{rules};

use crate::facts::Facts;
use std::cmp::Reverse;

// Says of two transactions' facts whether the first goes before the second.
pub trait VictimPolicy: Copy {
    // the first goes before the second
    ghost before: { Facts → Facts → Bool };

    // Whether the first goes before the second.
    fn goes_before(self, first: Facts, second: Facts) -> bool
        ensures { result ≡ before first second };

    // It is a strict total order.
    ghost order: { Order before };
}

// The higher ordinal goes first, then the lower number, then fewer changes.
#[derive(Clone, Copy)]
pub struct Youngest;

// Fewer changes go first, then as Youngest decides: by ordinal and number, the changes being equal.
// Not one function over a key: the two keys differ in type, and a member for it needs a law of its own.
#[derive(Clone, Copy)]
pub struct Lightest;

impl VictimPolicy for Youngest {
    ghost before = { youngest };

    ghost order = { Prim.search rules };

    fn goes_before(self, first: Facts, second: Facts) -> bool {
        let by_age = |facts: Facts| (Reverse(facts.ordinal), facts.number, facts.changes);
        by_age(first) < by_age(second)
    }
}

impl VictimPolicy for Lightest {
    ghost before = { lightest };

    ghost order = { Prim.search rules };

    fn goes_before(self, first: Facts, second: Facts) -> bool {
        let by_changes = |facts: Facts| (facts.changes, Reverse(facts.ordinal), facts.number);
        by_changes(first) < by_changes(second)
    }
}
