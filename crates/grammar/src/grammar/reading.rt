//! Reading a grammar.
ghost use Rattle.format.specs.Judge.{judge};
ghost use Rattle.grammar.specs.Whole.{GrammarRead, GrammarExact};

use crate::grammar::Grammar;
use crate::read::{ReadError, read_fields};
use std::alloc::Global;

impl Grammar {
    /// The grammar that the bytes are, or their one fault; or want of memory.
    pub fn read(heap: Global, bytes: &[u8]) -> Result<Grammar, ReadError>
        ensures judged { GrammarRead (judge bytes.now) result }
        ensures exact { GrammarExact bytes.now result }
    {
        let draft = read_fields(heap, bytes)?;
        Ok(Grammar {
            header: draft.header,
            table: draft.table,
        })
    }
}
