//! Prints the grammar that standard input holds: its counts, then each tree with its nodes, indented by depth. Bytes that are no grammar print the one
//! line of their fault.
#![tactic(auto)]

use grammar::grammar::Grammar;
use std::io;
use std::io::Read;

mod depth;
mod show;

fn main(rt: HostRuntime) -> io::Result<()> {
    let heap = rt.alloc();
    let mut bytes = Vec::new(heap);
    rt.stdin().read_to_end(&mut bytes)?;
    match Grammar::read(heap, bytes.as_slice()) {
        Ok(grammar) => show::grammar(&rt, &grammar),
        Err(error) => rt.println(error),
    }
}
