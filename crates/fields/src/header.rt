//! The header of a grammar, and the names that it allows.
ghost use Rattle.std.specs.Prelude.{◌≡◌};
ghost use Rattle.format.specs.Judge.{kind_of};

use format::node::Kind;

/// What a header says: how many labels and how many words there are. Both are numbered from 1.
#[derive(Clone, Copy, Default, PartialEq, Eq, Debug)]
pub struct Header {
    pub labels: u8,
    pub words: u16,
}

impl Header {
    /// A node's kind by its kind byte and its name, or none where either is bad.
    // No TryFrom: which names are good is the header's to say.
    pub(crate) fn kind(self, kind: u8, name: u16) -> Option<Kind>
        ensures { result ≡ kind_of self.labels self.words kind name }
    {
        match kind {
            0 if 0 < name && name <= u16::from(self.labels) => Some(Kind::Inner(name as u8)),
            1 if 0 < name && name <= self.words => Some(Kind::Word(name)),
            2 if name == 0 => Some(Kind::Empty),
            3 if 0 < name && name <= u16::from(self.labels) => Some(Kind::Foot(name as u8)),
            _ => None,
        }
    }
}
