//! What makes the choices of a walk.
ghost use Rattle.std.specs.Prelude.{◌≡◌, ℕ};
ghost use Rattle.format.specs.Parts.{Contents};
ghost use Rattle.grammar.specs.Grammars.{contents_in};
ghost use Rattle.walk.specs.Ahead.{Ahead};
ghost use Rattle.walk.specs.Guided.{Silent, Over, Heard, Chosen};

use crate::choice::Choice;
use grammar::grammar::Grammar;

/// Makes the choices of a walk and hears its words.
pub trait Guide: Sized {
    // What the guide keeps: as it began, as it stands, the grammar, and what is still to walk.
    ghost holds: { Self → Self → Contents → Ahead → Type 0 };

    // What holds where it stops the walk.
    ghost stops: { Self → Self → Contents → Type 0 };

    // How many choices it can still make.
    ghost left: { Self → ℕ };

    // What it keeps does not depend on nodes without a word or a choice, nor on the ends of parts.
    ghost silent: { Silent holds };

    ghost over: { Over holds };

    /// How many choices it can still make.
    fn choices_left(&self) -> usize
        ensures { result ≡ left self.now };

    /// The choice at a node that lists trees, in the tree with this tag; None stops the walk.
    fn choose(&mut self, grammar: &Grammar, tag: usize, tree: u8, node: usize) -> Option<Choice>
        ensures { Chosen holds stops left (contents_in grammar.now) self.old self.new tag tree node result };

    /// A word that the walk meets.
    fn hear(&mut self, word: u16)
        ensures { Heard holds left self.old self.new word };
}
