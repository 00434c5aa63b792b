//! Notes that are the same by their key.
ghost use Rattle.std.specs.Prelude.{◌==◌};
ghost use Rattle.std.proofs.Common.{rules};

use super::*;
use std::test::Fail;

#[derive(Clone, Copy)]
struct Note {
    key: u8,
    text: u8,
}

impl Same for Note {
    ghost alike = { λ x y. (x.key == y.key) };

    ghost reflexive = { Prim.search rules };

    ghost symmetric = { Prim.search rules };

    ghost transitive = { Prim.search rules };

    fn same(&self, other: &Note) -> bool {
        self.key == other.key
    }
}

#[test]
fn the_first_of_a_class_stays(rt: HostRuntime) {
    let mut memory = [Note { key: 0, text: 0 }; 2];
    assert_eq!(rt;
        add(&mut memory, 0, Note { key: 0, text: 5 }),
        Ok(Added::New(0))
    );
    assert_eq!(rt;
        add(&mut memory, 1, Note { key: 0, text: 6 }),
        Ok(Added::Held(0))
    );
    assert_eq!(rt; memory[0].text, 5);
    assert_eq!(rt;
        add(&mut memory, 1, Note { key: 1, text: 7 }),
        Ok(Added::New(1))
    );
    assert_eq!(rt; add(&mut memory, 2, Note { key: 2, text: 8 }), Err(NoRoom));
    assert_eq!(rt; memory[1].text, 7);
}

#[test]
fn no_memory_has_no_room(rt: HostRuntime) {
    let mut memory = [Note { key: 3, text: 0 }; 0];
    assert_eq!(rt; add(&mut memory, 0, Note { key: 3, text: 1 }), Err(NoRoom));
}

#[test]
fn more_records_than_memory_have_no_room(rt: HostRuntime) {
    let mut memory = [Note { key: 3, text: 0 }; 1];
    assert_eq!(rt; add(&mut memory, 2, Note { key: 3, text: 1 }), Err(NoRoom));
}

#[test]
fn a_list_holds_each_class_once(rt: HostRuntime) -> Result<(), Fail> {
    let memory = vec![in rt.alloc(); Note { key: 0, text: 0 }; 2]?;
    let mut list = DistinctList::new(memory);
    assert_eq!(rt; list.len(), 0);
    assert!(rt; !list.contains(&Note { key: 0, text: 5 }));
    assert_eq!(rt; list.add(Note { key: 0, text: 5 }), Ok(0));
    assert_eq!(rt; list.add(Note { key: 0, text: 6 }), Ok(0));
    assert_eq!(rt; list.add(Note { key: 1, text: 7 }), Ok(1));
    assert_eq!(rt; list.add(Note { key: 2, text: 8 }), Err(NoRoom));
    assert!(rt; list.contains(&Note { key: 1, text: 9 }));
    assert!(rt; !list.contains(&Note { key: 2, text: 8 }));
    assert_eq!(rt; list.items().first().map(|note| note.text), Some(5));
    assert_eq!(rt; list.len(), 2);
    assert_eq!(rt; list.into_memory().len(), 2);
    Ok(())
}
