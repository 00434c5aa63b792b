//! Foot predict: the nodes that list the tree of a foot.
ghost use Rattle.std.specs.Prelude.{map};
ghost use Rattle.format.specs.Questions.{listing, listing_nodes};
ghost use Rattle.format.specs.Keeps.{nodes_in};
ghost use Rattle.steps.specs.Conclusions.{foot_site, foot_predict};
ghost use Rattle.chart.specs.Drawn.{Drawn, contents_of};

use crate::asking::starts_foot;
use crate::store::{Premise, Store};
use format::spot::Spot;
use steps::item::{Item, Origin};

impl Store<'_> {
    /// Draws the first item of each node of the tree that lists the tree of `x`.
    fn predict_in_tree(&mut self, x: Premise<'_>, tree: u8)
        ensures { Drawn self.old self.new (map (foot_site x.entry.number x.entry.item.now) (listing_nodes x.entry.item.now.tree tree 0 (nodes_in (contents_of self.old) tree))) }
    {
        let grammar = self.grammar;
        for (node, _) in (0..=u8::MAX).zip(grammar.nodes(tree)) {
            if !grammar.lists(tree, node, x.item.tree) {
                continue;
            }
            self.draw(Item::first(
                tree,
                Spot::At(node),
                x.item.j,
                Origin::FootPredict(x.number),
            ));
        }
    }

    /// Draws the first item of each node of the grammar that lists the tree of `x`.
    fn predict_listing(&mut self, x: Premise<'_>)
        ensures { Drawn self.old self.new (map (foot_site x.entry.number x.entry.item.now) (listing (contents_of self.old) x.entry.item.now.tree)) }
    {
        for tree in 0..self.grammar.tree_count() {
            self.predict_in_tree(x, tree);
        }
    }

    /// Foot predict: where the item is at the first dot of a foot.
    pub(crate) fn predict_foot(&mut self, x: Premise<'_>)
        ensures { Drawn self.old self.new (foot_predict (contents_of self.old) x.entry.number x.entry.item.now) }
    {
        if starts_foot(self.grammar, x.item) {
            self.predict_listing(x);
        }
    }
}
