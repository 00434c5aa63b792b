//! The walk: from choice to choice, until everything is walked or the guide stops.
ghost use Rattle.std.specs.Prelude.{length};
ghost use Rattle.grammar.specs.Grammars.{contents_in};
ghost use Rattle.walk.specs.Ahead.{whole_tree};
ghost use Rattle.walk.specs.Guided.{Guided};

use crate::choice::{Choice, Halt};
use crate::guide::Guide;
use crate::stack::Frame;
use crate::walking::Walking;
use grammar::grammar::Grammar;

/// Walks through the tree and all that the guide adjoins, until everything is walked or the guide stops. The stack needs one entry more than the guide has choices left.
pub fn walk<G: Guide>(
    grammar: &Grammar,
    guide: &mut G,
    stack: &mut [Frame],
    tree: u8,
    tag: usize,
) -> Result<(), Halt>
    ensures { Guided G.holds G.stops G.left (contents_in grammar.now) (length stack.old) (whole_tree (contents_in grammar.now) tag tree) guide.old guide.new result }
{
    if stack.len() <= guide.choices_left() {
        return Err(Halt::SmallStack);
    }
    let mut walking = Walking::new(grammar, stack, tree, tag);
    while let Some(at) = walking.next_choice(guide) {
        let choice = guide
            .choose(grammar, at.tag, at.tree, at.node)
            .ok_or(Halt::Stopped)?;
        match choice {
            Choice::Stay => walking.enter(),
            Choice::Adjoin(tree, tag) => walking.adjoin(tree, tag),
        }
    }
    Ok(())
}
