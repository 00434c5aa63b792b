//! How much a grammar has.
ghost use Rattle.grammar.specs.Grammars.{contents_in};
ghost use Rattle.summary.specs.Counts.{Counted};

use grammar::grammar::Grammar;

/// How many labels, words, trees and nodes a grammar has.
#[derive(Clone, Copy, PartialEq, Eq, Debug)]
pub struct Counts {
    pub labels: u8,
    pub words: u16,
    pub trees: usize,
    pub nodes: usize,
}

/// The counts of a grammar.
impl From<&Grammar> for Counts {
    ghost from_gives = { λ grammar counts. Counted (contents_in grammar.now) counts };

    fn from(grammar: &Grammar) -> Counts {
        Counts {
            labels: grammar.labels(),
            words: grammar.words(),
            trees: grammar.trees().len(),
            nodes: grammar.node_count(),
        }
    }
}
