//! What a field is, and how far a reading has come.
ghost use Rattle.std.specs.Prelude.{◌≡◌};
ghost use Rattle.format.specs.Codes.{tag_read};

use crate::fault::Rule;
use crate::node::Form;

/// What a field is, by its tag byte.
#[derive(Clone, Copy, PartialEq, Eq, Debug)]
pub enum Tag {
    Header,
    Tree(Form),
    Adjoining,
}

/// What a field is, by its tag byte, or that no field has such a tag.
impl TryFrom<u8> for Tag {
    type Error = Rule;

    ghost try_from_gives = { λ tag r. r ≡ tag_read tag };

    fn try_from(tag: u8) -> Result<Self, Rule> {
        match tag {
            1 => Ok(Tag::Header),
            2 => Ok(Tag::Tree(Form::Initial)),
            3 => Ok(Tag::Tree(Form::Auxiliary)),
            4 => Ok(Tag::Adjoining),
            _ => Err(Rule::Tag),
        }
    }
}

/// How far a reading has come: before the header, among the trees, or among the adjoining fields.
#[derive(Clone, Copy, PartialEq, Eq, Debug)]
pub enum Phase {
    Start,
    Trees,
    Adjoinings,
}
