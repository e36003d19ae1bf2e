// The object kinds: what an object is, which operations it knows, and what each does.
#![tactic(auto)]

pub mod answer;
pub mod join;
pub mod kind;
pub mod number;
pub mod operation;
pub mod queue;
pub mod roll;
pub mod short_list;
pub mod tally;
