// An operation: a code and two numbers.
ghost use Rattle.std.specs.Prelude.{◌≡◌, Some, codes};
ghost use Rattle.kinds.specs.Numbers.{numbers};
ghost use Rattle.kinds.specs.Operations.{ranged, fits};

use crate::number::Number;
use std::error::Error;
use std::fmt;

// The largest number in operations and states.
pub const LARGEST: u32 = 999_999_999;

// Whether a number is at most the largest.
pub(crate) fn in_range(number: u32) -> bool
    ensures { result ≡ ranged number }
{
    number <= LARGEST
}

// Any code and any numbers: which of them a kind knows is for the kind to say. Plain numbers and no
// enum, since what no kind knows can be called too, and must be told as unknown.
#[derive(Clone, Copy, PartialEq, Eq, Debug)]
pub struct Operation {
    pub code: u32,
    pub first: u32,
    pub second: u32,
}

impl Operation {
    // The operation of a code and two numbers.
    pub fn new(code: u32, first: u32, second: u32) -> Operation
        ensures { result ≡ record { code = code; first = first; second = second } }
    {
        Operation {
            code,
            first,
            second,
        }
    }

    // Whether its numbers suit a code that uses the first `count` of them.
    fn fits(self, count: u32) -> bool
        ensures { result ≡ fits count self }
    {
        let first = if count > 0 { LARGEST } else { 0 };
        let second = if count > 1 { LARGEST } else { 0 };
        self.first <= first && self.second <= second
    }

    // Its numbers, if they suit a code that uses the first `count` of them.
    pub(crate) fn numbers(self, count: u32) -> Option<(Number, Number)>
        ensures { result ≡ numbers count self }
    {
        if !self.fits(count) {
            return None;
        }
        let first = Number { value: self.first };
        let second = Number { value: self.second };
        Some((first, second))
    }
}

// An operation is not one that a kind knows.
#[derive(Clone, Copy, PartialEq, Eq, Debug)]
pub struct UnknownOperation;

impl fmt::Display for UnknownOperation {
    ghost output = { λ _. Some (codes "unknown operation") };

    fn fmt<W: fmt::Write>(&self, f: &mut fmt::Formatter<W>) -> fmt::Result {
        f.write_str("unknown operation")
    }
}

impl Error for UnknownOperation {}
