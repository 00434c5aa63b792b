//! Prints the chart of the first sentence that standard input holds: its items in order, then its verdict and its counts.
//!
//! The input is a grammar and then a field of tag 9, whose body is words of two bytes each, the high byte first; a word 0 ends a sentence. What stands behind
//! that field is not read. An input without such a field, with an odd body or cut short prints `stream`. Bytes that are no grammar print the one line of their fault.
#![tactic(auto)]

use grammar::grammar::Grammar;
use std::io;
use std::io::Read;

mod line;
mod sentence;
mod show;
mod stream;

fn main(rt: HostRuntime) -> io::Result<()> {
    let heap = rt.alloc();
    let mut bytes = Vec::new(heap);
    rt.stdin().read_to_end(&mut bytes)?;
    let Some(stream) = stream::cut(bytes.as_slice()) else {
        return rt.println("stream");
    };
    let words = sentence::first(heap, stream.words)?;
    match Grammar::read(heap, stream.grammar) {
        Ok(grammar) => show::sentence(&rt, &grammar, words.as_slice()),
        Err(error) => rt.println(error),
    }
}
