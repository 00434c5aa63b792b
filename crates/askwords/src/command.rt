//! What a line asks for.
use std::num::ParseIntError;
use std::str::FromStr;

/// A line of the input.
#[derive(Clone, Copy)]
pub enum Command {
    /// Begins a lattice with a last position and room for a number of edges.
    Lattice { last: u32, capacity: u32 },
    /// Adds an edge to the lattice.
    Edge { from: u32, word: u16, to: u32 },
    /// Opens a window over the lattice.
    Window { from: u32, to: u32 },
    /// Asks for an edge.
    Ask { from: u32, word: u16, to: u32 },
    /// Asks for the last position.
    Last,
}

/// The number that a part of a line stands for, if it is one.
fn number<N: FromStr<Err = ParseIntError>>(part: Option<&str>) -> Option<N> {
    part?.parse().ok()
}

/// The command that a line gives, if it gives one.
pub fn parse(line: &str) -> Option<Command> {
    let mut parts = line.split_whitespace();
    match parts.next()? {
        "lattice" => Some(Command::Lattice {
            last: number(parts.next())?,
            capacity: number(parts.next())?,
        }),
        "edge" => Some(Command::Edge {
            from: number(parts.next())?,
            word: number(parts.next())?,
            to: number(parts.next())?,
        }),
        "window" => Some(Command::Window {
            from: number(parts.next())?,
            to: number(parts.next())?,
        }),
        "ask" => Some(Command::Ask {
            from: number(parts.next())?,
            word: number(parts.next())?,
            to: number(parts.next())?,
        }),
        "last" => Some(Command::Last),
        _ => None,
    }
}
