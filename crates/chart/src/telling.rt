//! What a chart tells: its verdict, and its items by number.
ghost use Rattle.std.specs.Prelude.{◌≡◌};
ghost use Rattle.grammar.specs.Grammars.{contents_in};
ghost use Rattle.steps.specs.Verdicts.{says_yes, yes_in, verdict};
ghost use Rattle.theory.specs.Came.{Came};
ghost use Rattle.chart.specs.Drawn.{contents_of, held_in};
ghost use Rattle.chart.specs.Charts.{working_in, working_closed, shown};

use crate::chart::{Chart, Closed};
use crate::concluding::is_whole;
use crate::refusal::Refusal;
use grammar::grammar::Grammar;
use steps::item::Item;
use steps::verdict::Verdict;

/// Whether the item is finished at the top of a tree that may start a derivation, from 0 to the last position.
fn is_yes(grammar: &Grammar, last: u32, x: &Item) -> bool
    ensures { result ≡ says_yes (contents_in grammar.now) last x.now }
{
    grammar.may_start(x.tree) && is_whole(x) && x.i == 0 && u32::from(x.j) == last
}

/// Whether some item says yes.
fn any_yes(grammar: &Grammar, last: u32, items: &[Item]) -> bool
    ensures { result ≡ yes_in (contents_in grammar.now) last items.now }
{
    items.iter().any(|x| is_yes(grammar, last, x))
}

impl Chart<'_> {
    /// The held items, in the order of their numbers.
    pub fn items(&self) -> &[Item]
        ensures { result.now ≡ held_in self.now.store }
    {
        self.store.list.items()
    }

    /// Yes if an item is held that is finished at the top of a tree that may start a derivation, from 0 to the last position; else no at rest, full when full, open otherwise.
    pub fn verdict(&self) -> Verdict
        ensures { result ≡ verdict (contents_of self.now.store) self.now.last (working_in self.now) }
    {
        if any_yes(self.store.grammar, self.last, self.items()) {
            return Verdict::Yes;
        }
        if self.store.full {
            return Verdict::Full;
        }
        if self.goes_on() {
            return Verdict::Open;
        }
        Verdict::No
    }

    /// One item by its number; refused past the held items.
    pub fn item(&self, number: usize) -> Result<Item, Refusal>
        ensures { result ≡ shown (held_in self.now.store) number }
    {
        self.items().get(number).copied().ok_or(Refusal::NoSuchItem)
    }
}

impl Closed<'_> {
    /// The verdict, as the chart had it when it was closed.
    pub fn verdict(&self) -> Verdict
        ensures { result ≡ verdict (contents_of self.now.chart.store) self.now.chart.last (working_closed self.now) }
    {
        self.chart.verdict()
    }

    /// One item by its number; refused past the held items.
    pub fn item(&self, number: usize) -> Result<Item, Refusal>
        ensures { result ≡ shown (held_in self.now.chart.store) number }
    {
        self.chart.item(number)
    }

    /// The held items, in the order of their numbers. Each came by the step that its origin names.
    pub fn items(&self) -> &[Item]
        ensures items { result.now ≡ (working_closed self.now).state.items }
        ensures came { Came (contents_of self.now.chart.store) result.now }
    {
        self.chart.items()
    }

    /// The grammar that the chart was made over.
    pub fn grammar(&self) -> &Grammar
        ensures { result.now ≡ self.now.chart.store.grammar.now }
    {
        self.chart.store.grammar
    }

    /// The last position of the chart's source.
    pub fn last_position(&self) -> u32
        ensures { result ≡ self.now.chart.last }
    {
        self.chart.last
    }
}
