//! The parts of a grammar: its elementary trees, their nodes, and what may adjoin at a node.
ghost use Rattle.std.specs.Prelude.{◌≡◌, Some};
ghost use Rattle.format.specs.Parts.{label_of_kind};
ghost use Rattle.format.specs.Codes.{obligation_read};
ghost use Rattle.format.specs.Texts.{form_name, obligation_name, kind_text, constraint_text};

use crate::fault::Rule;
use std::fmt;

/// What a node is, with its label or word.
#[derive(Clone, Copy, PartialEq, Eq, Debug)]
pub enum Kind {
    /// An inner node with its label.
    Inner(u8),
    /// A leaf with a word.
    Word(u16),
    /// A leaf without a word.
    Empty,
    /// The foot of an auxiliary tree, with its label.
    Foot(u8),
}

impl Kind {
    /// The label of an inner node or a foot; 0 for another leaf.
    pub fn label(self) -> u8
        ensures { result ≡ label_of_kind self }
    {
        match self {
            Kind::Inner(label) | Kind::Foot(label) => label,
            Kind::Word(_) | Kind::Empty => 0,
        }
    }
}

/// What the node is, with its label or word.
impl fmt::Display for Kind {
    ghost output = { λ x. Some (kind_text x) };

    fn fmt<W: fmt::Write>(&self, f: &mut fmt::Formatter<W>) -> fmt::Result {
        match self {
            Kind::Inner(label) => write!(f, "inner {label}"),
            Kind::Word(word) => write!(f, "word {word}"),
            Kind::Empty => f.write_str("empty"),
            Kind::Foot(label) => write!(f, "foot {label}"),
        }
    }
}

/// Whether a node may stay as it is, or has to be adjoined to.
#[derive(Clone, Copy, PartialEq, Eq, Debug)]
pub enum Obligation {
    Optional,
    Obligatory,
}

/// What the third byte of an adjoining field says, or that it is above 1.
impl TryFrom<u8> for Obligation {
    type Error = Rule;

    ghost try_from_gives = { λ byte r. r ≡ obligation_read byte };

    fn try_from(byte: u8) -> Result<Self, Rule> {
        match byte {
            0 => Ok(Obligation::Obligatory),
            1 => Ok(Obligation::Optional),
            _ => Err(Rule::List),
        }
    }
}

impl fmt::Display for Obligation {
    ghost output = { λ x. Some (obligation_name x) };

    fn fmt<W: fmt::Write>(&self, f: &mut fmt::Formatter<W>) -> fmt::Result {
        f.write_str(match self {
            Obligation::Optional => "optional",
            Obligation::Obligatory => "obligatory",
        })
    }
}

/// The adjoining constraint of a node, where the grammar gives it one.
#[derive(Clone, Copy, PartialEq, Eq, Debug)]
pub struct Constraint {
    pub obligation: Obligation,
    /// By tree number: the auxiliary trees that may adjoin here.
    // Flags: a node is copied and the trees are at most 64, so the set is fixed memory, and one look-up tells of a tree.
    pub listed: [bool; 64],
}

/// Whether adjoining is optional or obligatory, and the trees that may adjoin.
impl fmt::Display for Constraint {
    ghost output = { λ x. Some (constraint_text x) };

    fn fmt<W: fmt::Write>(&self, f: &mut fmt::Formatter<W>) -> fmt::Result {
        let obligation = self.obligation;
        write!(f, "{obligation}:")?;
        if !self.listed.contains(&true) {
            return f.write_str(" none");
        }
        for (tree, listed) in self.listed.iter().enumerate() {
            if *listed {
                write!(f, " {tree}")?;
            }
        }
        Ok(())
    }
}

/// A node of an elementary tree. The nodes of a tree lie in the order of the file, each followed by its children's subtrees.
#[derive(Clone, Copy, PartialEq, Eq, Debug)]
pub struct Node {
    pub kind: Kind,
    /// How many children the node has.
    pub children: u8,
    /// The number, within the tree, of the node past this node's subtree.
    // A number and no box of children: nodes lie in one list in the order of the file, which is the definitions' own layout.
    pub end: usize,
    /// A node without a constraint may stay as it is and takes no tree.
    pub constraint: Option<Constraint>,
}

/// Whether a derivation may begin with the tree, or the tree adjoins to a node of another.
#[derive(Clone, Copy, PartialEq, Eq, Debug)]
pub enum Form {
    Initial,
    Auxiliary,
}

impl fmt::Display for Form {
    ghost output = { λ x. Some (form_name x) };

    fn fmt<W: fmt::Write>(&self, f: &mut fmt::Formatter<W>) -> fmt::Result {
        f.write_str(match self {
            Form::Initial => "initial",
            Form::Auxiliary => "auxiliary",
        })
    }
}

/// An elementary tree: its nodes are the `size` nodes of the table from `start` on. The label is its root's.
#[derive(Clone, Copy, PartialEq, Eq, Debug)]
pub struct Tree {
    pub form: Form,
    pub label: u8,
    pub start: usize,
    pub size: usize,
}
