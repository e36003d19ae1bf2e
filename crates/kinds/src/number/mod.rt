// The numbers that operations and states hold.
mod convert;
mod value;

pub use convert::AboveLargest;
pub use value::Number;
