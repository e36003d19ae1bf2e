// Which entries are a queue's.
ghost use Rattle.std.specs.Prelude.{◌≡◌};
ghost use Rattle.std.specs.List.{list_all};
ghost use Rattle.kinds.specs.Operations.{ranged};

use crate::operation::in_range;
use crate::short_list::Item;

impl Item for u32 {
    ghost blank = { 0 };

    ghost good = { list_all ranged };

    fn blank() -> u32 {
        0
    }

    fn are_good(numbers: &[u32]) -> bool {
        numbers.iter().all(|number| in_range(*number))
    }
}
