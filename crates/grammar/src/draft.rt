//! What has been read of a grammar so far, and one more field.
ghost use Rattle.std.specs.Prelude.{◌≡◌};
ghost use Rattle.format.specs.Judge.{judge_header, judge_tree, judge_adjoining, judge_field, nothing_read};
ghost use Rattle.grammar.specs.Drafts.{state, Judged};

use crate::table::Table;
use fields::field::pair;
use fields::header::Header;
use fields::stop::Stop;
use fields::tree::read_tree;
use format::fault::Rule;
use format::node::Form;
use format::stage::{Phase, Tag};
use std::alloc::Global;

/// What has been read so far.
#[derive(Drop)]
pub struct Draft {
    pub phase: Phase,
    pub header: Header,
    pub table: Table,
}

impl Draft {
    /// Nothing read so far.
    pub(crate) fn new(heap: Global) -> Draft
        ensures { state result ≡ nothing_read }
    {
        Draft {
            phase: Phase::Start,
            header: Header::default(),
            table: Table::new(heap),
        }
    }

    /// The header: one byte of labels and two of words.
    fn header(&mut self, body: &[u8]) -> Result<(), Stop>
        ensures { Judged (judge_header (state self.old) body.now) self.new result }
    {
        let [labels, high, low] = body else {
            return Err(Rule::Body.into());
        };
        let header = Header {
            labels: *labels,
            words: pair(*high, *low),
        };
        if header.labels == 0 || header.words == 0 {
            return Err(Rule::Body.into());
        }
        self.phase = Phase::Trees;
        self.header = header;
        Ok(())
    }

    /// One more tree.
    fn tree(&mut self, heap: Global, form: Form, body: &[u8]) -> Result<(), Stop>
        ensures { Judged (judge_tree (state self.old) form body.now) self.new result }
    {
        if body.is_empty() || body.len() % 4 != 0 {
            return Err(Rule::Body.into());
        }
        if !self.table.has_room(body.len() / 4) {
            return Err(Rule::Room.into());
        }
        let planted = read_tree(heap, self.header, form, body)?;
        self.table.add_tree(form, &planted)?;
        Ok(())
    }

    /// One more adjoining constraint.
    fn adjoining(&mut self, body: &[u8]) -> Result<(), Stop>
        ensures { Judged (judge_adjoining (state self.old) body.now) self.new result }
    {
        let [tree, node, choice, list @ ..] = body else {
            return Err(Rule::Body.into());
        };
        self.table.adjoin(*tree, *node, *choice, list)?;
        self.phase = Phase::Adjoinings;
        Ok(())
    }

    /// One more field.
    pub(crate) fn field(&mut self, heap: Global, tag: u8, body: &[u8]) -> Result<(), Stop>
        ensures { Judged (judge_field (state self.old) tag body.now) self.new result }
    {
        match (self.phase, Tag::try_from(tag)?) {
            (Phase::Start, Tag::Header) => self.header(body),
            (Phase::Trees, Tag::Tree(form)) => self.tree(heap, form, body),
            (Phase::Trees | Phase::Adjoinings, Tag::Adjoining) => self.adjoining(body),
            _ => Err(Rule::Order.into()),
        }
    }
}
