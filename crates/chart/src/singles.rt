//! The steps with no premise or one.
ghost use Rattle.std.specs.Prelude.{◌≡◌, ℕ, ◌<◌, ◌≤◌, Option};
ghost use Rattle.std.specs.Option.{option_to_list};
ghost use Rattle.steps.specs.declared.item.Item.{Item};
ghost use Rattle.steps.specs.declared.item.Origin.TheVariants.{Scan};
ghost use Rattle.steps.specs.Items.{moved, most_positions};
ghost use Rattle.steps.specs.Orders.{upto};
ghost use Rattle.steps.specs.Conclusions.{starts, scan_word, scan, predict, adjoin_predict};
ghost use Rattle.chart.specs.Drawn.{Drawn, contents_of};

use crate::asking::{next, site};
use crate::store::{Premise, Store};
use format::node::Kind;
use format::spot::{Next, Spot};
use steps::item::{Item, Origin};
use words::Source;

/// A source that is short enough for a chart: each of its positions fits an item.
#[derive(Drop)]
pub(crate) struct Short<'s, S: Source> {
    pub(crate) source: &'s S,
    ghost short: { (S.meaning source.now).last ≤ most_positions },
}

/// The item with its dot past a leaf that was scanned.
fn scanned(x: Premise<'_>) -> Item
    requires { x.item.now.dot < 8 }
    ensures { result ≡ moved x.entry.item.now x.entry.item.now.j x.entry.item.now.p x.entry.item.now.q (Scan x.entry.number) }
{
    Item {
        dot: x.item.dot + 1,
        origin: Origin::Scan(x.number),
        ..*x.item
    }
}

impl Store<'_> {
    /// Draws what is concluded at each number below `n`, in rising order.
    fn draw_each<F: Fn(u8) -> Option<Item>>(&mut self, n: u8, conclude: F)
        requires { F.IsAlwaysCallable conclude }
        ensures { (g : ℕ → Option Item) → ((k : ℕ) (r : _) → k < n → F.post conclude k r → r ≡ g k)
            → Drawn self.old self.new (upto n (λ k. option_to_list (g k))) }
    {
        for k in 0..n {
            let Some(item) = conclude(k) else {
                continue;
            };
            self.draw(item);
        }
    }

    /// Start: each tree that may start a derivation.
    pub(crate) fn start_trees(&mut self)
        ensures { Drawn self.old self.new (starts (contents_of self.old)) }
    {
        let grammar = self.grammar;
        self.draw_each(grammar.tree_count(), |tree| {
            grammar
                .may_start(tree)
                .then(|| Item::first(tree, Spot::Top, 0, Origin::Start))
        });
    }

    /// Scan over each edge with the word.
    fn scan_edges<S: Source>(&mut self, short: &Short<'_, S>, x: Premise<'_>, word: u16)
        requires { x.item.now.dot < 8 }
        ensures { Drawn self.old self.new (scan_word (S.meaning short.now.source.now) x.entry.number x.entry.item.now word) }
    {
        let source = short.source;
        let positions = source.last_position() + 1;
        let past = scanned(x);
        self.draw_each(positions as u8, |k| {
            source
                .has_edge(u32::from(x.item.j), word, u32::from(k))
                .then(|| Item { j: k, ..past })
        });
    }

    /// Scan: a leaf right after the dot.
    pub(crate) fn scan_leaf<S: Source>(&mut self, short: &Short<'_, S>, x: Premise<'_>)
        ensures { Drawn self.old self.new (scan (contents_of self.old) (S.meaning short.now.source.now) x.entry.number x.entry.item.now) }
    {
        let grammar = self.grammar;
        let Next::Child(n) = next(grammar, x.item) else {
            return;
        };
        match grammar.kind(x.item.tree, n) {
            Kind::Word(word) => self.scan_edges(short, x, word),
            Kind::Empty => self.draw(scanned(x)),
            Kind::Inner(_) | Kind::Foot(_) => {}
        }
    }

    /// Predict: the node after the dot, where it may stay as it is.
    pub(crate) fn predict_node(&mut self, x: Premise<'_>)
        ensures { Drawn self.old self.new (predict (contents_of self.old) x.entry.number x.entry.item.now) }
    {
        let Some(n) = site(self.grammar, x.item) else {
            return;
        };
        if self.grammar.may_stay(x.item.tree, n) {
            self.draw(Item::first(
                x.item.tree,
                Spot::At(n),
                x.item.j,
                Origin::Predict(x.number),
            ));
        }
    }

    /// Adjoin predict: each tree that the node after the dot lists.
    pub(crate) fn predict_adjoined(&mut self, x: Premise<'_>)
        ensures { Drawn self.old self.new (adjoin_predict (contents_of self.old) x.entry.number x.entry.item.now) }
    {
        let grammar = self.grammar;
        let Some(n) = site(grammar, x.item) else {
            return;
        };
        self.draw_each(grammar.tree_count(), |tree| {
            grammar.lists(x.item.tree, n, tree).then(|| Item::first(
                tree,
                Spot::Top,
                x.item.j,
                Origin::AdjoinPredict(x.number),
            ))
        });
    }
}
