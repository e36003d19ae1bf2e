// Which entries are a roll's.
ghost use Rattle.std.specs.Prelude.{◌≡◌, ◌+◌};
ghost use Rattle.kinds.specs.RollRows.{suits, rising};
ghost use Rattle.kinds.specs.Rolls.{entry};

use super::entry::Entry;
use crate::operation::in_range;
use crate::short_list::Item;

impl Entry {
    // Whether neither number is above the largest.
    fn is_ranged(self) -> bool
        ensures { result ≡ suits 0 self }
    {
        in_range(self.key) && in_range(self.number)
    }

    // Whether another may come right after it: one with a larger key, and in range.
    fn leads_to(self, next: Entry) -> bool
        ensures { result ≡ suits (self.key + 1) next }
    {
        self.key < next.key && next.is_ranged()
    }
}

impl Item for Entry {
    ghost blank = { entry 0 0 };

    ghost good = { rising 0 };

    fn blank() -> Entry {
        Entry { key: 0, number: 0 }
    }

    // The first entry comes after none, so it is tested alone; each other one with the one before it.
    fn are_good(entries: &[Entry]) -> bool {
        entries.first().is_none_or(|first| first.is_ranged())
            && entries.is_sorted_by(|left, right| left.leads_to(*right))
    }
}
