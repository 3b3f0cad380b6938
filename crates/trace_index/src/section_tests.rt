// Sections in an index.
use crate::tests::written_between_sections;
use crate::{Index, Section};
use sp_base::{LockId, Steps, ThreadId};
use std::marker::Brand;

// Whether that is the section of that number, of a lock by a thread.
fn has_section(
    index: &Index<'_>,
    lock: u32,
    thread: u16,
    number: u32,
    wanted: Option<Section>,
) -> bool {
    let (Some(lock), Some(thread)) = (LockId::new(lock), ThreadId::new(thread)) else {
        return false;
    };
    let mut steps = Steps::<Brand>::new();
    index.next_section(lock, thread, number, &mut steps) == wanted
}

// A section that ends.
fn ended(acquire: u32, release: u32) -> Option<Section> {
    Some(Section {
        acquire,
        release: Some(release),
    })
}

#[test]
fn an_index_knows_sections(rt: HostRuntime) {
    let trace = written_between_sections(&rt, rt.alloc());
    let index = Index::build(rt.alloc(), &trace).expect(&rt, "room");
    for (lock, thread, number, wanted) in [
        (0, 0, 0, ended(0, 3)),
        (0, 0, 1, ended(5, 8)),
        (0, 0, 2, None),
        (0, 1, 0, ended(11, 12)),
        (1, 1, 0, ended(10, 13)),
        (0, 2, 0, None),
        (7, 0, 0, None),
    ] {
        assert!(rt;
            has_section(&index, lock, thread, number, wanted),
            "section {number} of {lock} by {thread}"
        );
    }
}
