//! The verdicts of known sentences.
use crate::known::{KNOWN, Told, worked};
use std::test::Fail;
use steps::verdict::Verdict;

#[test]
fn known_sentences_have_their_verdicts(rt: HostRuntime) -> Result<(), Fail> {
    let heap = rt.alloc();
    assert_eq!(rt;
        worked(heap, &KNOWN, 2000, &[2, 1])?,
        Told::new(Verdict::Yes, 12, 12)
    );
    assert_eq!(rt;
        worked(heap, &KNOWN, 2000, &[1])?,
        Told::new(Verdict::Yes, 6, 6)
    );
    assert_eq!(rt;
        worked(heap, &KNOWN, 2000, &[2])?,
        Told::new(Verdict::No, 7, 7)
    );
    assert_eq!(rt;
        worked(heap, &KNOWN, 2000, &[])?,
        Told::new(Verdict::No, 4, 4)
    );
    Ok(())
}

#[test]
fn one_place_too_few_is_full(rt: HostRuntime) -> Result<(), Fail> {
    let heap = rt.alloc();
    assert_eq!(rt;
        worked(heap, &KNOWN, 12, &[2, 1])?,
        Told::new(Verdict::Yes, 12, 12)
    );
    assert_eq!(rt;
        worked(heap, &KNOWN, 11, &[2, 1])?,
        Told::new(Verdict::Full, 11, 11)
    );
    Ok(())
}

#[test]
fn obligatory_adjoining_leaves_the_longer_sentence(rt: HostRuntime) -> Result<(), Fail> {
    let heap = rt.alloc();
    let mut bytes = KNOWN;
    bytes[37] = 0;
    assert_eq!(rt;
        worked(heap, &bytes, 2000, &[1])?,
        Told::new(Verdict::No, 3, 3)
    );
    assert_eq!(rt;
        worked(heap, &bytes, 2000, &[2, 1])?,
        Told::new(Verdict::Yes, 11, 11)
    );
    Ok(())
}
