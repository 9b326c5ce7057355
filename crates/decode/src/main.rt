//! Prints captured containers for a person at the bench.
#![tactic(auto)]

use std::{env, fs, io};

mod container;
mod dataset;
mod fields;
mod hex;
mod line;
mod names;
mod numbers;
mod text;

fn main(rt: HostRuntime) -> io::Result<()> {
    for path in env::args(&rt)?.skip(1) {
        let captured = fs::read_to_string(&rt, path.as_str())?;
        println!(rt; "{path}")?;
        for (number, line) in (1..).zip(captured.as_str().lines()) {
            line::print_line(&rt, number, line)?;
        }
    }
    Ok(())
}
