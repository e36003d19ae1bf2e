// Tests that stand outside the crates they try, each a table.
#![tactic(auto)]

#[cfg(test)]
mod edges;
#[cfg(test)]
mod rows;
