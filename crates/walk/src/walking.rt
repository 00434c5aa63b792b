//! A walk under way, and its moves.
ghost use Rattle.std.specs.Prelude.{◌<◌, length};
ghost use Rattle.grammar.specs.Grammars.{contents_in};
ghost use Rattle.walk.specs.Stacks.{Going};

use crate::guide::Guide;
use crate::node::{content_of, lists_any};
use crate::slots::{begin, pause};
use crate::stack::{Frame, Piece};
use format::node::{Kind, Node};
use grammar::grammar::Grammar;

/// A walk under way through trees of a grammar.
// The stack is handed in, so entries name each other by number: the project's rule, fixed memory and no heap, leaves no boxes.
#[derive(Drop)]
pub(crate) struct Walking<'a> {
    grammar: &'a Grammar,
    /// One entry for each tree begun, and room for more.
    stack: &'a mut [Frame],
    /// How many trees are begun.
    depth: usize,
    /// How many pieces wait.
    waits: usize,
    /// The piece that is being walked.
    here: Piece,
    ghost going: { Going (contents_in grammar.now) stack.now depth waits here },
}

impl<'a> Walking<'a> {
    ghost use Rattle.std.specs.Prelude.{◌≡◌, ◌+◌, ◌≤◌};
    ghost use Rattle.std.specs.Option.{MatchOption};
    ghost use Rattle.format.specs.Keeps.{node_in};
    ghost use Rattle.walk.specs.Ahead.{whole_tree};
    ghost use Rattle.walk.specs.Moves.{ahead_of, contents_of, entered_here, adjoined_here, Moved, Resumed};
    ghost use Rattle.walk.specs.Guided.{NextChoice};

    /// Begins with a whole tree.
    pub(crate) fn new(
        grammar: &'a Grammar,
        stack: &'a mut [Frame],
        tree: u8,
        tag: usize,
    ) -> Walking<'a>
        requires { 0 < length stack.old }
        ensures grammar { contents_of result ≡ contents_in grammar.now }
        ensures entries { length result.stack.now ≡ length stack.old }
        ensures depth { result.depth ≡ 1 }
        ensures ahead { ahead_of result ≡ whole_tree (contents_in grammar.now) tag tree }
    {
        begin(stack, 0, None);
        let here = Piece {
            frame: 0,
            tag,
            tree,
            node: 0,
            end: grammar.nodes(tree).len(),
        };
        Walking {
            grammar,
            stack,
            depth: 1,
            waits: 0,
            here,
        }
    }

    /// The first node; None at the end of the piece that is being walked.
    fn node(&self) -> Option<&'a Node>
        ensures { MatchOption result (self.now.here.end ≤ self.now.here.node) (λ n. (self.now.here.node < self.now.here.end) × (n.now ≡ node_in (contents_of self.now) self.now.here.tree self.now.here.node)) }
    {
        self.grammar.nodes(self.here.tree)[..self.here.end].get(self.here.node)
    }

    /// Goes on with the piece that waits last; false if none waits.
    fn resume(&mut self) -> bool
        ensures { Resumed self.old self.new result }
    {
        if self.waits == 0 {
            return false;
        }
        let last = self.waits - 1;
        let here = self.stack[last / 2].waiting[last % 2];
        self.waits = last;
        self.here = here;
        true
    }

    /// Goes on with the content of the first node, and then with what follows it.
    pub(crate) fn enter(&mut self)
        requires { self.old.here.node < self.old.here.end }
        ensures { Moved self.old.depth (entered_here self.old) self.old self.new }
    {
        let node = &self.grammar.nodes(self.here.tree)[self.here.node];
        self.here.node += 1;
        let Kind::Foot(_) = node.kind else {
            return;
        };
        let Some(content) = self.stack[self.here.frame].content else {
            return;
        };
        pause(self.stack, self.waits, self.here);
        self.waits += 1;
        self.here = content;
    }

    /// Goes on in a tree that is adjoined at the first node, with that node's content at the tree's foot, and then with what follows the node.
    pub(crate) fn adjoin(&mut self, tree: u8, tag: usize)
        requires some { self.old.here.node < self.old.here.end }
        requires room { self.old.depth < length self.old.stack.now }
        ensures { Moved (self.old.depth + 1) (adjoined_here tree tag self.old) self.old self.new }
    {
        let node = &self.grammar.nodes(self.here.tree)[self.here.node];
        let inside = Piece {
            node: self.here.node + 1,
            end: node.end,
            ..self.here
        };
        let behind = Piece {
            node: node.end,
            ..self.here
        };
        let content = content_of(node.kind, inside, self.stack[self.here.frame].content);
        pause(self.stack, self.waits, behind);
        begin(self.stack, self.depth, content);
        self.here = Piece {
            frame: self.depth,
            tag,
            tree,
            node: 0,
            end: self.grammar.nodes(tree).len(),
        };
        self.depth += 1;
        self.waits += 1;
    }

    /// Walks on to the next node that lists a tree, and gives the piece that begins with it; None at the end of the walk.
    pub(crate) fn next_choice<G: Guide>(&mut self, guide: &mut G) -> Option<Piece>
        ensures { NextChoice G.holds G.left guide.old guide.new self.old self.new result }
    {
        loop {
            let Some(node) = self.node() else {
                if !self.resume() {
                    return None;
                }
                continue;
            };
            match node.kind {
                Kind::Word(word) => {
                    guide.hear(word);
                    self.enter();
                }
                _ if lists_any(node) => return Some(self.here),
                _ => self.enter(),
            }
        }
    }
}
