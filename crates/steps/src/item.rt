//! Items of a chart.
ghost use Rattle.std.specs.Prelude.{◌≡◌, Some};
ghost use Rattle.steps.specs.Items.{fresh};
ghost use Rattle.steps.specs.Texts.{origin_text};

use format::spot::Spot;
use std::fmt;

/// The step that first gave an item, with the numbers of its premises in the order of the step.
#[derive(Clone, Copy, PartialEq, Eq, Debug)]
pub enum Origin {
    Start,
    Scan(usize),
    Predict(usize),
    Complete(usize, usize),
    AdjoinPredict(usize),
    FootPredict(usize),
    FootComplete(usize, usize),
    AdjoinComplete(usize, usize, usize),
}

/// The step by its name, and the numbers of its premises.
impl fmt::Display for Origin {
    ghost output = { λ x. Some (origin_text x) };

    fn fmt<W: fmt::Write>(&self, f: &mut fmt::Formatter<W>) -> fmt::Result {
        match self {
            Origin::Start => f.write_str("start"),
            Origin::Scan(a) => write!(f, "scan from {a}"),
            Origin::Predict(a) => write!(f, "predict from {a}"),
            Origin::Complete(a, b) => write!(f, "complete from {a} and {b}"),
            Origin::AdjoinPredict(a) => write!(f, "adjoin predict from {a}"),
            Origin::FootPredict(a) => write!(f, "foot predict from {a}"),
            Origin::FootComplete(a, b) => write!(f, "foot complete from {a} and {b}"),
            Origin::AdjoinComplete(a, b, c) => write!(f, "adjoin complete from {a}, {b} and {c}"),
        }
    }
}

/// An item: in a tree, at its top or one of its nodes, the first `dot` children span the positions `i` to `j`. If the tree's foot lies among them, it spans `p` to `q`.
///
/// Items are compared by `Same`, which leaves out their origins, and not by `==`.
// Positions by name and not in pairs: the definitions of the steps name each of the four.
#[derive(Clone, Copy)]
pub struct Item {
    pub tree: u8,
    pub spot: Spot,
    pub dot: u8,
    pub i: u8,
    pub j: u8,
    pub p: u8,
    pub q: u8,
    pub origin: Origin,
}

impl Item {
    /// The item at the first dot of a place, at a position.
    pub fn first(tree: u8, spot: Spot, position: u8, origin: Origin) -> Item
        ensures { result ≡ fresh tree spot position origin }
    {
        Item {
            tree,
            spot,
            dot: 0,
            i: position,
            j: position,
            p: MISSING,
            q: MISSING,
            origin,
        }
    }
}

/// What stands for a foot position that is missing. An `Option` for each would take an item from 40 bytes to 48 in memory that is handed in.
pub const MISSING: u8 = 255;

/// The greatest last position of a source that a chart takes.
pub const MOST_POSITIONS: u32 = 250;
