//! The byte format of grammars: its types, what bytes are a grammar, and the one fault of those that are none.
#![tactic(auto)]

pub mod fault;
pub mod node;
pub mod spot;
pub mod stage;

ghost use Rattle.format.specs.Exactness.{JudgedExactly, OneOrOther};
ghost use Rattle.format.specs.Known.{KnownRead};

/// The judgement of bytes takes exactly those that are a grammar of the format.
pub fn judged_exactly()
    ensures { JudgedExactly }
{}

/// Every list of bytes is one grammar or has one fault, never both and never neither.
pub fn one_or_other()
    ensures { OneOrOther }
{}

/// The known grammar is read as its two trees, with the constraint at the root of the first.
pub fn known_grammar()
    ensures { KnownRead }
{}
