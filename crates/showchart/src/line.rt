//! The lines of a chart.
ghost use Rattle.std.specs.Prelude.{Some};
ghost use Rattle.showchart.specs.Lines.{foot_text};

use std::fmt;
use steps::item::{Item, MISSING};

/// A foot position, or a dash where it is missing.
#[derive(Clone, Copy)]
pub struct FootText(pub u8);

impl fmt::Display for FootText {
    ghost output = { λ x. Some (foot_text x.0) };

    fn fmt<W: fmt::Write>(&self, f: &mut fmt::Formatter<W>) -> fmt::Result {
        let position = self.0;
        if position == MISSING {
            write!(f, "-")
        } else {
            write!(f, "{position}")
        }
    }
}

/// An item with its number.
#[derive(Clone, Copy)]
pub struct ItemLine {
    pub number: usize,
    pub item: Item,
}

impl fmt::Display for ItemLine {
    fn fmt<W: fmt::Write>(&self, f: &mut fmt::Formatter<W>) -> fmt::Result {
        let number = self.number;
        let Item {
            tree,
            spot,
            dot,
            i,
            j,
            p,
            q,
            origin,
        } = self.item;
        let p = FootText(p);
        let q = FootText(q);
        write!(
            f,
            "{number}: tree {tree} {spot} dot {dot}, {i} to {j}, foot {p} {q}, {origin}"
        )
    }
}
