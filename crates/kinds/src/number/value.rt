// The type of numbers in range.
ghost use Rattle.std.specs.Prelude.{◌≡◌, true};
ghost use Rattle.kinds.specs.Operations.{ranged};

// A number from 0 to the largest.
#[derive(Clone, Copy, PartialEq, Eq, Debug)]
pub struct Number {
    pub(crate) value: u32,
    ghost in_range: { ranged value ≡ true },
}
