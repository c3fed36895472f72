// Judges books at the edges of document 01 and prints each one's name, answer and numbers, and H's productions.
#![tactic(auto)]

mod built;
mod house;
mod showing;
mod small;

use std::io;

fn main(rt: HostRuntime) -> io::Result<()> {
    house::whole(&rt)?;
    house::marks(&rt)?;
    house::limits(&rt)?;
    house::symbols(&rt)?;
    house::uses(&rt)?;
    small::short(&rt)?;
    small::useless(&rt)?;
    built::chain(&rt)?;
    built::longest(&rt)
}
