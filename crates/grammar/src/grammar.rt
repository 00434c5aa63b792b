//! A grammar that was read.
ghost use Rattle.format.specs.Format.{Described};
ghost use Rattle.format.specs.Keeps.{Few, SomeTreeInitial, TreesWhole, Roots, Ends, Subtrees, Children, ChildWithin, InnerArity, LeafArity, Names, Feet, FootLabels, Constraints, ListedThere, ListedAuxiliary, ListedLabels, Obligations};
ghost use Rattle.grammar.specs.Holds.{holding};

use crate::table::Table;
use fields::header::Header;

/// A grammar: how many labels and words it has, its trees and their nodes. It keeps every rule of the format.
#[derive(Drop)]
pub struct Grammar {
    header: Header,
    table: Table,
    ghost rules: { ∥ Described (holding header.labels header.words table) ∥₁ },
    ghost few: { Few (holding header.labels header.words table) },
    ghost initial: { SomeTreeInitial (holding header.labels header.words table) },
    ghost whole: { TreesWhole (holding header.labels header.words table) },
    ghost roots: { Roots (holding header.labels header.words table) },
    ghost ends: { Ends (holding header.labels header.words table) },
    ghost subtrees: { Subtrees (holding header.labels header.words table) },
    ghost children: { Children (holding header.labels header.words table) },
    ghost within: { ChildWithin (holding header.labels header.words table) },
    ghost inner: { InnerArity (holding header.labels header.words table) },
    ghost leaves: { LeafArity (holding header.labels header.words table) },
    ghost names: { Names (holding header.labels header.words table) },
    ghost feet: { Feet (holding header.labels header.words table) },
    ghost footing: { FootLabels (holding header.labels header.words table) },
    ghost constraints: { Constraints (holding header.labels header.words table) },
    ghost listed: { ListedThere (holding header.labels header.words table) },
    ghost auxiliary: { ListedAuxiliary (holding header.labels header.words table) },
    ghost agreeing: { ListedLabels (holding header.labels header.words table) },
    ghost obligations: { Obligations (holding header.labels header.words table) },
}

mod layout;
mod listing;
mod parts;
mod questions;
mod reading;
