//! The steps as a deduction system, that a chart holds what it derives, and what calls that work on a chart leave of it.
#![tactic(auto)]

ghost use Rattle.theory.specs.Calls.{CallsAddUp, EqualCharts, MostExists};
ghost use Rattle.theory.specs.Theorems.{ConclusionsAreTheSteps, DerivableAreConcluded, HeldAreDerivable, HeldAreJustified, RestingHoldAll};
ghost use Rattle.theory.specs.Verdicts.{CalledVerdictsAreRight, VerdictsAreRight};

/// An item is derivable exactly if a step concludes it from derivable items.
pub fn derivable_items_are_concluded()
    ensures { DerivableAreConcluded }
{}

/// The conclusions of processing an item are exactly the steps that have it as a premise and no premise with a greater number.
pub fn conclusions_are_the_steps()
    ensures { ConclusionsAreTheSteps }
{}

/// Every item that a chart holds is the conclusion of the step that it names, from the items that it names as premises: these are held, with
/// smaller numbers.
pub fn held_items_are_justified()
    ensures { HeldAreJustified }
{}

/// Every item that a chart holds is derivable.
pub fn held_items_are_derivable()
    ensures { HeldAreDerivable }
{}

/// A chart that refused no item and has processed all that it holds has every derivable item, up to step and premises.
pub fn resting_charts_hold_all_derivable()
    ensures { RestingHoldAll }
{}

/// For each grammar, source and room there is exactly one number of items after which, and not before, none is left to process or the chart
/// is full: the most that there is to do. It is at most the number of items that the chart has room for.
pub fn most_exists()
    ensures { MostExists }
{}

/// Calls that work on one chart leave it as a single call with the sum of their budgets would, budgets of refused calls left out. As many
/// items are processed as that sum says, or as there are to do at most.
pub fn calls_add_up()
    ensures { CallsAddUp }
{}

/// Two lists of calls leave equal charts exactly if they leave equal numbers of items processed.
pub fn equal_charts()
    ensures { EqualCharts }
{}

/// A chart that is not full and does not go on is at rest, and then it says yes or no. It says yes only if a derivable item says yes, and no
/// only if none does.
pub fn verdicts_are_right()
    ensures { VerdictsAreRight }
{}

/// The same of the chart that any calls leave.
pub fn called_verdicts_are_right()
    ensures { CalledVerdictsAreRight }
{}
