// Numbers from and to plain ones.
ghost use Rattle.std.specs.Prelude.{◌≡◌, Some, codes};
ghost use Rattle.std.specs.Result.{result_ok};
ghost use Rattle.kinds.specs.Numbers.{number_at};

use super::value::Number;
use crate::operation::in_range;
use std::error::Error;
use std::fmt;

// A value is above the largest number.
#[derive(Clone, Copy, PartialEq, Eq, Debug)]
pub struct AboveLargest;

impl fmt::Display for AboveLargest {
    ghost output = { λ _. Some (codes "above the largest number") };

    fn fmt<W: fmt::Write>(&self, f: &mut fmt::Formatter<W>) -> fmt::Result {
        f.write_str("above the largest number")
    }
}

impl Error for AboveLargest {}

impl TryFrom<u32> for Number {
    type Error = AboveLargest;

    ghost try_from_gives = { λ v r. result_ok r ≡ number_at v };

    fn try_from(value: u32) -> Result<Number, AboveLargest> {
        if !in_range(value) {
            return Err(AboveLargest);
        }
        Ok(Number { value })
    }
}

impl From<Number> for u32 {
    ghost from_gives = { λ n v. v ≡ n.value };

    fn from(number: Number) -> u32 {
        number.value
    }
}
