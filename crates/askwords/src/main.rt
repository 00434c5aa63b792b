//! Builds a word lattice and a window over it from lines of standard input, and prints what each answers.
//!
//! The lines are `lattice LAST CAPACITY`, `edge FROM WORD TO`, `window FROM TO`, `ask FROM WORD TO` and `last`.
#![tactic(auto)]

mod command;
mod desk;
mod reply;

use command::parse;
use desk::Desk;
use std::io;

fn main(rt: HostRuntime) -> io::Result<()> {
    let mut desk = Desk::new(rt.alloc());
    for line in rt.lines(rt.alloc()) {
        let line = line?;
        let Some(command) = parse(line.as_str()) else {
            println!(rt; "{line}: not understood")?;
            continue;
        };
        match desk.reply(rt.alloc(), command)? {
            Ok(answer) => println!(rt; "{line}: {answer}")?,
            Err(refusal) => println!(rt; "{line}: {refusal}")?,
        }
    }
    Ok(())
}
