// Stamps of a small trace.
ghost use Rattle.std.specs.Prelude.{◌≡◌};

use crate::tests::written_between_sections;
use crate::{Index, Stamps};
use std::alloc::Global;

// Whether that is the stamp of the place.
fn has_stamp(index: &Index<'_>, stamps: &Stamps<'_>, place: u32, wanted: [u32; 2]) -> bool
    requires { stamps.now ≡ index.now }
{
    if place >= index.trace().len() {
        return false;
    }
    stamps.stamp(place) == wanted.as_slice()
}

// Whether the stamps of the index are counted.
fn are_counted(alloc: Global, index: &Index<'_>) -> bool {
    let Ok(stamps) = Stamps::build(alloc, index) else {
        return false;
    };
    has_stamp(index, &stamps, 8, [9, 0])
        && has_stamp(index, &stamps, 9, [5, 1])
        && has_stamp(index, &stamps, 11, [5, 3])
}

#[test]
fn stamps_are_counted(rt: HostRuntime) {
    let trace = written_between_sections(&rt, rt.alloc());
    let index = Index::build(rt.alloc(), &trace).expect(&rt, "room");
    assert!(rt; are_counted(rt.alloc(), &index));
}
