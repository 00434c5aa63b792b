//! Where an item stands in its tree.
ghost use Rattle.std.specs.Prelude.{◌≡◌};
ghost use Rattle.grammar.specs.Grammars.{contents_in};
ghost use Rattle.steps.specs.Conclusions.{after, finished, site_of, starts_foot};
ghost use Rattle.chart.specs.Early.{Early, EarlySite};

use format::node::Kind;
use format::spot::{Next, Spot};
use grammar::grammar::Grammar;
use steps::item::Item;

// Each question takes a grammar and an item, and no struct of both: the two or three premises of a step are asked of one grammar.
/// What comes after the item's dot. Only the first eight dots have a child after them.
pub(crate) fn next(grammar: &Grammar, x: &Item) -> Next
    ensures is { result ≡ after (contents_in grammar.now) x.now }
    ensures early { Early result x.now.dot }
{
    grammar.after_dot(x.tree, x.spot, x.dot)
}

/// Whether the item's dot is last.
pub(crate) fn finished(grammar: &Grammar, x: &Item) -> bool
    ensures { result ≡ finished (contents_in grammar.now) x.now }
{
    next(grammar, x) == Next::End
}

/// The inner node or foot right after the item's dot.
pub(crate) fn site(grammar: &Grammar, x: &Item) -> Option<u8>
    ensures is { result ≡ site_of (contents_in grammar.now) x.now }
    ensures early { EarlySite result x.now.dot }
{
    let Next::Child(n) = next(grammar, x) else {
        return None;
    };
    match grammar.kind(x.tree, n) {
        Kind::Inner(_) | Kind::Foot(_) => Some(n),
        Kind::Word(_) | Kind::Empty => None,
    }
}

/// Whether the item is at the first dot of a foot.
pub(crate) fn starts_foot(grammar: &Grammar, x: &Item) -> bool
    ensures { result ≡ starts_foot (contents_in grammar.now) x.now }
{
    let Spot::At(n) = x.spot else {
        return false;
    };
    x.dot == 0 && x.i == x.j && matches!(grammar.kind(x.tree, n), Kind::Foot(_))
}
