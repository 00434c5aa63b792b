//! A lattice, a window over it, and what they answer.
ghost use Rattle.std.specs.Prelude.{◌≡◌, IfOk, None};
ghost use Rattle.words.specs.Edges.{empty_lattice};
ghost use Rattle.words.specs.Lattices.{edge_answer, lattice_meaning, list_after, list_of};
ghost use Rattle.askwords.specs.Replies.{edge_answers, last_answers, Answered};

use crate::command::Command;
use crate::reply::{Answer, Both, HasEdge, Reply};
use std::alloc::{AllocError, Global};
use words::{Edge, Lattice, Refusal, Source, Window, judge_lattice, judge_window};

/// The positions of a lattice between which a window lies.
#[derive(Clone, Copy)]
pub struct Span {
    from: u32,
    to: u32,
}

/// A lattice, and the window that was last opened over it.
#[derive(Drop)]
pub struct Desk {
    lattice: Lattice,
    span: Option<Span>,
}

impl Desk {
    /// A lattice with no position but 0 and no room, and no window.
    pub fn new(heap: Global) -> Desk
        ensures lattice { lattice_meaning result.lattice ≡ empty_lattice 0 }
        ensures span { result.span ≡ None }
    {
        Desk {
            lattice: Lattice::new(Vec::new(heap), 0),
            span: None,
        }
    }

    /// Does what a line asks for, and answers it.
    pub fn reply(&mut self, heap: Global, command: Command) -> Result<Reply, AllocError>
        ensures { IfOk result (λ reply. Answered self.old command reply self.new) }
    {
        match command {
            Command::Lattice { last, capacity } => {
                let memory = vec![in heap; Edge::default(); capacity as usize]?;
                self.lattice = Lattice::new(memory, last);
                self.span = None;
                Ok(judge_lattice(last).map(|()| Answer::Taken))
            }
            Command::Edge { from, word, to } => Ok(
                self.lattice.add_edge(from, word, to).map(Answer::Number),
            ),
            Command::Window { from, to } => {
                self.span = Some(Span { from, to });
                Ok(judge_window(&self.lattice, from, to).map(|()| Answer::Taken))
            }
            Command::Ask { from, word, to } => Ok(Ok(Answer::Edge(self.ask(from, word, to)))),
            Command::Last => Ok(Ok(Answer::Last(self.last()))),
        }
    }

    /// Whether the lattice and the window have an edge.
    fn ask(&self, from: u32, word: u16, to: u32) -> Both<HasEdge>
        ensures { result ≡ edge_answers self.now from word to }
    {
        Both {
            lattice: HasEdge(self.lattice.has_edge(from, word, to)),
            window: self.span.map(|span| {
                HasEdge(Window::new(&self.lattice, span.from, span.to).has_edge(from, word, to))
            }),
        }
    }

    /// The last position of the lattice and of the window.
    fn last(&self) -> Both<u32>
        ensures { result ≡ last_answers self.now }
    {
        Both {
            lattice: self.lattice.last_position(),
            window: self.span.map(|span| {
                Window::new(&self.lattice, span.from, span.to).last_position()
            }),
        }
    }
}
