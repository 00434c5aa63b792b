//! Reads the bytes of each case of standard input as a grammar, and prints what the reading answers. A case is a line: its name, and then its bytes as
//! tokens, each of hexadecimal digits, or of a number, `*` and digits that are repeated so often.
#![tactic(auto)]

use outcome::Outcome;
use std::io;
use std::io::{BufRead, BufReader};

mod case;
mod hex;
mod outcome;

fn main(rt: HostRuntime) -> io::Result<()> {
    let heap = rt.alloc();
    for line in BufReader::new(heap, rt.stdin())?.lines(heap) {
        let line = line?;
        let (name, tokens) = case::parts(line.as_str());
        let outcome = Outcome(outcome::of_case(heap, tokens));
        println!(rt; "{name} {outcome}")?;
    }
    Ok(())
}
