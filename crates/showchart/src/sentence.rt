//! The sentences of a body of words.
ghost use Rattle.std.specs.Prelude.{◌≡◌, IfOk};
ghost use Rattle.showchart.specs.Sentences.{first_sentence};

use fields::field::pair;
use std::alloc::{AllocError, Global};

/// The words up to the first 0, or up to the end of the body.
pub(crate) fn first(heap: Global, body: &[u8]) -> Result<Vec<u16>, AllocError>
    ensures { IfOk result (λ v. v.items ≡ first_sentence body.now) }
{
    let mut words = Vec::new(heap);
    let mut rest = body;
    while let [high, low, more @ ..] = rest {
        let word = pair(*high, *low);
        if word == 0 {
            return Ok(words);
        }
        words.push(word)?;
        rest = more;
    }
    Ok(words)
}
