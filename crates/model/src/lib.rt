// What everything means, and why it is right: one call's meaning, and the laws of every list of calls.
#![tactic(auto)]

pub mod call;
pub mod every_run;
pub mod facts;
pub mod fault;
mod fault_text;
pub mod lock;
pub mod policy;
pub mod reply;
pub mod worked_examples;
