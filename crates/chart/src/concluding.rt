//! The steps with two and three premises.
ghost use Rattle.std.specs.Prelude.{◌≡◌, ◌&&◌, ◌==◌, is_some};
ghost use Rattle.grammar.specs.Grammars.{contents_in};
ghost use Rattle.steps.specs.Items.{joined};
ghost use Rattle.steps.specs.Conclusions.{finished, site_of, completes, complete, lists_at, foots, foot_complete, is_top, whole, fills, adjoins, adjoin_complete};
ghost use Rattle.chart.specs.Lasts.{of_two, of_three};

use crate::asking::{finished, site, starts_foot};
use crate::store::Premise;
use format::spot::Spot;
use grammar::grammar::Grammar;
use steps::item::{Item, MISSING, Origin};

/// The join of two foot positions: the one that is given, missing if neither is, the smaller if both are.
fn join(a: u8, b: u8) -> u8
    ensures { result ≡ joined a b }
{
    if a == MISSING {
        b
    } else if b == MISSING {
        a
    } else {
        a.min(b)
    }
}

/// Whether `y` is finished at the node `n` that `x` is before, and the node may stay as it is.
fn completes_at(grammar: &Grammar, x: &Item, y: &Item, n: u8) -> bool
    ensures { result ≡ completes (contents_in grammar.now) x.now y.now n }
{
    y.tree == x.tree
        && y.spot == Spot::At(n)
        && y.i == x.j
        && grammar.may_stay(x.tree, n)
        && finished(grammar, y)
}

/// Complete: `x` before a node that may stay as it is, and `y` finished at that node.
pub(crate) fn complete_node(
    grammar: &Grammar,
    first: Premise<'_>,
    second: Premise<'_>,
) -> Option<Item>
    ensures { result ≡ of_two (complete (contents_in grammar.now)) first.entry second.entry }
{
    let (x, y) = (first.item, second.item);
    if y.i != x.j || y.tree != x.tree {
        return None;
    }
    let n = site(grammar, x)?;
    if !completes_at(grammar, x, y, n) {
        return None;
    }
    Some(Item {
        dot: x.dot + 1,
        j: y.j,
        p: join(x.p, y.p),
        q: join(x.q, y.q),
        origin: Origin::Complete(first.number, second.number),
        ..*x
    })
}

/// Whether the place lists the tree.
fn lists_there(grammar: &Grammar, tree: u8, spot: Spot, auxiliary: u8) -> bool
    ensures { result ≡ lists_at (contents_in grammar.now) tree spot auxiliary }
{
    matches!(spot, Spot::At(n) if grammar.lists(tree, n, auxiliary))
}

/// Foot complete: `x` finished at a node that lists the tree of a foot, and `f` at the first dot of that foot.
pub(crate) fn complete_foot(
    grammar: &Grammar,
    first: Premise<'_>,
    second: Premise<'_>,
) -> Option<Item>
    ensures { result ≡ of_two (foot_complete (contents_in grammar.now)) first.entry second.entry }
{
    let (x, f) = (first.item, second.item);
    if f.i != x.i {
        return None;
    }
    if !starts_foot(grammar, f)
        || !lists_there(grammar, x.tree, x.spot, f.tree)
        || !finished(grammar, x)
    {
        return None;
    }
    Some(Item {
        tree: f.tree,
        spot: f.spot,
        dot: 1,
        i: x.i,
        j: x.j,
        p: x.i,
        q: x.j,
        origin: Origin::FootComplete(first.number, second.number),
    })
}

/// Whether the item is finished at the top of its tree.
pub(crate) fn is_whole(x: &Item) -> bool
    ensures { result ≡ whole x.now }
{
    x.spot == Spot::Top && x.dot == 1
}

/// Whether `y` lies between the foot positions of `x`, which is finished at the top of its tree.
pub(crate) fn fills_foot(x: &Item, y: &Item) -> bool
    ensures { result ≡ fills x.now y.now }
{
    is_whole(x) && y.i == x.p && y.j == x.q
}

/// Whether `y` is finished between the foot positions of `x`.
pub(crate) fn fills_finished(grammar: &Grammar, x: &Item, y: &Item) -> bool
    ensures { result ≡ (fills x.now y.now && finished (contents_in grammar.now) y.now) }
{
    fills_foot(x, y) && finished(grammar, y)
}

/// Whether `z` is before a node, where `x` begins.
pub(crate) fn begins_after(grammar: &Grammar, x: &Item, z: &Item) -> bool
    ensures { result ≡ ((x.now.i == z.now.j) && is_some (site_of (contents_in grammar.now) z.now)) }
{
    x.i == z.j && site(grammar, z).is_some()
}

/// Whether the tree of `x` adjoins at the node `n` that `z` is before, with `y` as the node's content.
fn adjoins_at(grammar: &Grammar, x: &Item, y: &Item, z: &Item, n: u8) -> bool
    ensures { result ≡ adjoins (contents_in grammar.now) x.now y.now z.now n }
{
    fills_foot(x, y)
        && y.tree == z.tree
        && y.spot == Spot::At(n)
        && x.i == z.j
        && grammar.lists(z.tree, n, x.tree)
        && finished(grammar, y)
}

/// Adjoin complete: `x` finished at the top of a tree, `y` finished at the node adjoined to, `z` before that node.
pub(crate) fn complete_adjoined(
    grammar: &Grammar,
    first: Premise<'_>,
    second: Premise<'_>,
    third: Premise<'_>,
) -> Option<Item>
    ensures { result ≡ of_three (adjoin_complete (contents_in grammar.now)) first.entry second.entry third.entry }
{
    let (x, y, z) = (first.item, second.item, third.item);
    if x.i != z.j || !fills_foot(x, y) {
        return None;
    }
    let n = site(grammar, z)?;
    if !adjoins_at(grammar, x, y, z, n) {
        return None;
    }
    Some(Item {
        dot: z.dot + 1,
        j: x.j,
        p: join(y.p, z.p),
        q: join(y.q, z.q),
        origin: Origin::AdjoinComplete(first.number, second.number, third.number),
        ..*z
    })
}
