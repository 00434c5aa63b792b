//! When two items are the same: all but their origins agree.
ghost use Rattle.std.specs.Prelude.{◌≡◌};
ghost use Rattle.steps.specs.Items.{same_spot, same_item};
ghost use Rattle.steps.specs.ItemSameLemmas.{both, num};
ghost use Rattle.steps.specs.ItemSameLemmas;
ghost use Rattle.std.proofs.Common.{rules};

use crate::item::Item;
use distinct::Same;
use format::spot::Spot;

/// Whether two places in trees are the same.
pub fn same_spot(a: Spot, b: Spot) -> bool
    ensures { result ≡ same_spot a b }
{
    a == b
}

impl Same for Item {
    ghost alike = { same_item };

    ghost reflexive = { Prim.search rules };

    ghost symmetric = { Prim.search rules };

    ghost transitive = { λ x y z.
        both _ _ _ _ _ _ (num x.tree y.tree z.tree)
        (both _ _ _ _ _ _ (ItemSameLemmas.spot x.spot y.spot z.spot)
        (both _ _ _ _ _ _ (num x.dot y.dot z.dot)
        (both _ _ _ _ _ _ (num x.i y.i z.i)
        (both _ _ _ _ _ _ (num x.j y.j z.j)
        (both _ _ _ _ _ _ (num x.p y.p z.p) (num x.q y.q z.q)))))) };

    fn same(&self, other: &Item) -> bool {
        self.tree == other.tree
            && same_spot(self.spot, other.spot)
            && self.dot == other.dot
            && self.i == other.i
            && self.j == other.j
            && self.p == other.p
            && self.q == other.q
    }
}
