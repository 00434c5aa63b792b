//! Items and the steps that conclude them: what a chart holds, by definition.
#![tactic(auto)]

pub mod item;
pub mod sameness;
pub mod verdict;

ghost use Rattle.steps.specs.Known.{KnownSentences};

/// The charts of known sentences, each by one calculation from the definitions.
pub fn known_sentences()
    ensures { KnownSentences }
{}
