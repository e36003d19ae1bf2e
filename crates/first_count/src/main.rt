// A first count: one counter enters one bundle, and each answer and closing state is printed.
#![tactic(auto)]

mod enter;
mod entries;
mod words;

use enter::enter;
use entries::{entries, opening};
use words::{Closing, Line};

fn run(rt: &HostRuntime) -> anyhow::Result<()> {
    let mut objects = opening();
    for entry in entries() {
        let reply = enter(&mut objects, entry);
        let line = Line { entry, reply };
        println!(rt; "{line}")?;
    }
    for (number, object) in objects.into_iter().enumerate() {
        let closing = Closing { number, object };
        println!(rt; "{closing}")?;
    }
    Ok(())
}

fn main(rt: HostRuntime) -> anyhow::Result<()> {
    run(&rt)
}
