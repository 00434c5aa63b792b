//! Derivations of a grammar, their yields and certificates, and that charts tell of them.
#![tactic(auto)]

ghost use Rattle.derivation.specs.Known.{KnownDerivations};
ghost use Rattle.derivation.specs.Spelling.{ChartsSpellRightly, KnownCertificates};
ghost use Rattle.derivation.specs.Theorems.{AcceptedExactlyWhenDerived, CalledYesItemsAreDerived, CertificatesDetermine, DerivableItemsSpan, JustifiedItemsSpan, SpannedItemsDerivable, SpansExactlyWhenAdmitted, VerdictsExactlyAsDerived, YesItemsAreDerived};

/// The known grammar's two derivations: the certificates 0 0 and 0 2, and the yields 1 and 2 1.
pub fn known_derivations()
    ensures { KnownDerivations }
{}

/// The part of the tree before the dot of a derivable item has a derivation that spans the item's positions, with its gap at the foot.
pub fn derivable_items_span()
    ensures { DerivableItemsSpan }
{}

/// In a justified list the derivation read off an item, by its step and its premises, is such a derivation.
pub fn justified_items_span()
    ensures { JustifiedItemsSpan }
{}

/// The derivation read off an item that says yes is a derivation of the grammar, with a yield that the source admits.
pub fn yes_items_are_derived()
    ensures { YesItemsAreDerived }
{}

/// The same of the chart that any calls leave.
pub fn called_yes_items_are_derived()
    ensures { CalledYesItemsAreDerived }
{}

/// Where the siblings behind the dot of a derivable item have a derivation that spans without a gap, the finished item is derivable.
pub fn spanned_items_are_derivable()
    ensures { SpannedItemsDerivable }
{}

/// A derivation of the grammar spans 0 to the last position without a gap exactly if the source admits its yield.
pub fn spans_exactly_when_admitted()
    ensures { SpansExactlyWhenAdmitted }
{}

/// A derivable item says yes exactly if a derivation of the grammar has a yield that the source admits.
pub fn accepted_exactly_when_derived()
    ensures { AcceptedExactlyWhenDerived }
{}

/// A chart at rest, after any calls, says yes exactly if a derivation of the grammar has a yield that the source admits, and no exactly if
/// none has.
pub fn verdicts_exactly_as_derived()
    ensures { VerdictsExactlyAsDerived }
{}

/// Two certificates are equal exactly if they spell the same derivation, and no certificate begins another.
pub fn certificates_determine()
    ensures { CertificatesDetermine }
{}

/// After any calls a chart spells a certificate exactly if its verdict is yes: that of the derivation read off its first item that says yes. The certificate passes.
pub fn charts_spell_rightly()
    ensures { ChartsSpellRightly }
{}

/// What the charts of three sentences of the known grammar spell: 0 2 for 2 1, 0 0 for 1, and nothing for 2.
pub fn known_certificates()
    ensures { KnownCertificates }
{}
