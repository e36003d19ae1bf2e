// What can stand in a short list.
ghost use Rattle.std.specs.Prelude.{◌≡◌, Bool, List};

// What stands in the places of a state's row.
pub trait Item: Copy + Eq {
    // the value of an empty place
    ghost blank: { Self };

    // the items are a state's
    ghost good: { List Self → Bool };

    // The value of an empty place.
    fn blank() -> Self
        ensures { result ≡ blank };

    // Whether the items are a state's.
    fn are_good(items: &[Self]) -> bool
        ensures { result ≡ good items.now };
}
