//! Why bytes are no grammar.
ghost use Rattle.std.specs.Prelude.{◌≡◌, Some};
ghost use Rattle.format.specs.Numbers.{number, layer};
ghost use Rattle.format.specs.Lines.{layer_name, fault_line};

use std::fmt;

/// The rule of the format that is broken.
#[derive(Clone, Copy, PartialEq, Eq, Debug)]
pub enum Rule {
    /// A field's head or body is cut short.
    Cut = 1,
    /// A tag that no field has.
    Tag = 2,
    /// The header is not first or comes again, a tree follows an adjoining field, or there are no bytes.
    Order = 3,
    /// A body of the wrong length, or a header with a zero count.
    Body = 4,
    /// One tree or one node too many.
    Room = 5,
    /// A node of a bad kind or name.
    Name = 6,
    /// The child counts do not make one tree, or the root is no inner node.
    Shape = 7,
    /// A foot in an initial tree, or not exactly one with the root's label in an auxiliary tree.
    Foot = 8,
    /// An adjoining field names an absent node, a leaf, or a node that was set before.
    Target = 9,
    /// An adjoining field's third byte is above 1, or its list is against the rules.
    List = 10,
    /// Too many bytes.
    Size = 11,
    /// No initial tree.
    NoInitial = 12,
}

/// The part of the format that a rule belongs to.
#[derive(Clone, Copy, PartialEq, Eq, Debug)]
pub enum Layer {
    Field,
    Tree,
    Adjoining,
}

/// A broken rule within one field: the first bad node for a bad kind or name, else 0.
#[derive(Clone, Copy, PartialEq, Eq, Debug)]
pub struct Refusal {
    pub rule: Rule,
    pub node: usize,
}

/// The one fault of bytes that are no grammar: the broken rule, the place of the field's tag, and the node.
#[derive(Clone, Copy, PartialEq, Eq, Debug)]
pub struct Fault {
    pub rule: Rule,
    pub place: usize,
    pub node: usize,
}

impl Rule {
    /// The number by which the rule's refusal is known.
    pub fn number(self) -> u8
        ensures { result ≡ number self }
    {
        self as u8
    }

    /// The layer that the rule belongs to.
    pub fn layer(self) -> Layer
        ensures { result ≡ layer self }
    {
        match self {
            Rule::Cut | Rule::Tag | Rule::Order | Rule::Body | Rule::Size | Rule::NoInitial =>
                Layer::Field,
            Rule::Room | Rule::Name | Rule::Shape | Rule::Foot => Layer::Tree,
            Rule::Target | Rule::List => Layer::Adjoining,
        }
    }
}

/// The word for a layer.
pub fn layer_name(layer: Layer) -> &'static str
    ensures { result.now ≡ layer_name layer }
{
    match layer {
        Layer::Field => "field",
        Layer::Tree => "tree",
        Layer::Adjoining => "adjoining",
    }
}

impl fmt::Display for Layer {
    ghost output = { λ x. Some (layer_name x) };

    fn fmt<W: fmt::Write>(&self, f: &mut fmt::Formatter<W>) -> fmt::Result {
        f.write_str(layer_name(*self))
    }
}

/// The line that tells of a fault: `fault`, then its number, its layer, its place and its node.
impl fmt::Display for Fault {
    ghost output = { λ x. Some (fault_line x) };

    fn fmt<W: fmt::Write>(&self, f: &mut fmt::Formatter<W>) -> fmt::Result {
        let Fault { rule, place, node } = *self;
        let number = rule.number();
        let layer = rule.layer();
        write!(f, "fault {number} {layer} {place} {node}")
    }
}
