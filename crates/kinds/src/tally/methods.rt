// What is done to a tally.
ghost use Rattle.std.specs.Prelude.{◌≡◌, ◌+◌, nat_le};
ghost use Rattle.kinds.specs.Operations.{largest};
ghost use Rattle.kinds.specs.Outcomes.{left_by};
ghost use Rattle.kinds.specs.Tallies.{tally_at, value_of, value_after, grown, lessened};
ghost use Rattle.kinds.specs.declared.tally.operation.TallyOperation.TheVariants.{Show};

use super::state::Tally;
use crate::answer::Outcome;
use crate::number::Number;
use crate::operation::LARGEST;

impl Tally {
    // The tally of a value, if it is in range.
    pub fn new(value: u32) -> Option<Tally>
        ensures { result ≡ tally_at value }
    {
        let number = Number::try_from(value).ok();
        number.map(|number| Tally { number })
    }

    // Whether the value can grow by n.
    pub(super) fn has_room(self, n: u32) -> bool
        ensures { result ≡ nat_le (value_of self + n) largest }
    {
        n <= LARGEST - self.number.value
    }

    // Whether the value can fall by n.
    pub(super) fn covers(self, n: u32) -> bool
        ensures { result ≡ nat_le n (value_of self) }
    {
        n <= self.number.value
    }

    // The value as an answer.
    pub(super) fn show(self) -> Outcome<Tally>
        ensures { result ≡ left_by tally_at self (value_after (value_of self) Show) }
    {
        Outcome::yes(self.number.value, self)
    }

    // The value grown by n, unless that is above the largest number.
    pub(super) fn add(self, n: u32) -> Outcome<Tally>
        ensures outcome { result ≡ left_by tally_at self (grown (value_of self) n) }
        ensures after { value_of result.next ≡ (grown (value_of self) n).1 }
    {
        if !self.has_room(n) {
            return Outcome::no(self);
        }
        let value = self.number.value + n;
        let number = Number { value };
        Outcome::yes(value, Tally { number })
    }

    // The value less n, unless n is more.
    pub(super) fn take(self, n: u32) -> Outcome<Tally>
        ensures outcome { result ≡ left_by tally_at self (lessened (value_of self) n) }
        ensures after { value_of result.next ≡ (lessened (value_of self) n).1 }
    {
        if !self.covers(n) {
            return Outcome::no(self);
        }
        let value = self.number.value - n;
        let number = Number { value };
        Outcome::yes(value, Tally { number })
    }
}
