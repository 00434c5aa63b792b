//! What a line is answered.
ghost use Rattle.std.specs.Prelude.{Some};
ghost use Rattle.askwords.specs.Replies.{has_edge_text, both_text, answer_text};

use std::fmt;
use words::Refusal;

/// What the lattice answers, and the window if there is one.
#[derive(Drop)]
pub struct Both<T> {
    pub lattice: T,
    pub window: Option<T>,
}

impl<T: fmt::Display> fmt::Display for Both<T> {
    ghost output = { both_text T.output };

    fn fmt<W: fmt::Write>(&self, f: &mut fmt::Formatter<W>) -> fmt::Result {
        write!(f, "lattice {}", self.lattice)?;
        match &self.window {
            Some(window) => write!(f, ", window {window}"),
            None => Ok(()),
        }
    }
}

/// Whether there is an edge.
#[derive(Clone, Copy)]
pub struct HasEdge(pub bool);

impl fmt::Display for HasEdge {
    ghost output = { λ h. Some (has_edge_text h) };

    fn fmt<W: fmt::Write>(&self, f: &mut fmt::Formatter<W>) -> fmt::Result {
        f.write_str(if self.0 { "yes" } else { "no" })
    }
}

/// What a line gets that is not refused.
#[derive(Drop)]
pub enum Answer {
    /// A lattice or a window was taken.
    Taken,
    /// An edge is held under this number.
    Number(usize),
    /// Whether there is the edge.
    Edge(Both<HasEdge>),
    /// The last position.
    Last(Both<u32>),
}

impl fmt::Display for Answer {
    ghost output = { answer_text };

    fn fmt<W: fmt::Write>(&self, f: &mut fmt::Formatter<W>) -> fmt::Result {
        match self {
            Answer::Taken => write!(f, "taken"),
            Answer::Number(number) => write!(f, "number {number}"),
            Answer::Edge(both) => write!(f, "{both}"),
            Answer::Last(both) => write!(f, "{both}"),
        }
    }
}

/// The answer to a line, or why it was refused.
pub type Reply = Result<Answer, Refusal>;
