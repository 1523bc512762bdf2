#![tactic(auto)]

// Asks shelves and sessions what a script says, a call to a line, and prints each line again with its answer.
mod answer;
mod opening;
mod records;
mod script;
mod single;
mod sitting;
mod source;
mod text;

use sitting::Sitting;
use std::io;
use std::io::{BufRead, BufReader};

// Plays the script on standard input. A line that opens a session ends the sitting before it.
fn main(rt: HostRuntime) -> io::Result<()> {
    let mut lines = BufReader::new(rt.alloc(), rt.stdin())?.lines(rt.alloc());
    let mut sitting = Sitting::FIRST;
    while let Some(next) = sitting.play(&rt, &mut lines)? {
        sitting = next;
    }
    Ok(())
}
