//! What is saved and loaded.

use crate::steps::{Saved, Step, assert_steps};

// A record takes the place of that of its slot.
const SAVED: &[Step] = &[
    Step::Saves(Saved::Promise(1000200001, 255, 262161)),
    Step::Saves(Saved::Vote(262161, 262161)),
    Step::Saves(Saved::Vote(524305, 262161)),
    Step::Loads(Ok((
        2,
        Some((1000100001, 0, 524305, 262161)),
        Some((1000200001, 255, 262161, 0)),
    ))),
];

// The same of a group, in its order; a group of one is a save, and one of none is nothing.
const TOGETHER: &[Step] = &[
    Step::SavesAll(&[]),
    Step::Loads(Ok((0, None, None))),
    Step::SavesAll(&[Saved::Vote(262161, 262161)]),
    Step::SavesAll(&[
        Saved::Promise(1000200001, 255, 262161),
        Saved::Vote(262177, 262161),
        Saved::Promise(1000200001, 255, 262177),
        Saved::Vote(524305, 262161),
    ]),
    Step::Loads(Ok((
        2,
        Some((1000100001, 0, 524305, 262161)),
        Some((1000200001, 255, 262177, 0)),
    ))),
    Step::Begins(Ok(1)),
];

const COUNTED: &[Step] = &[Step::Begins(Ok(1)), Step::Begins(Ok(2))];

const ADOPTED: &[Step] = &[
    Step::Saves(Saved::Vote(262161, 262161)),
    Step::Begins(Ok(1)),
    Step::IsAdopted,
    Step::Loads(Ok((
        1,
        Some((1000100001, 0, 262161, 262161)),
        Some((1000100001, 0, 262161, 262161)),
    ))),
    Step::Begins(Ok(2)),
];

#[test]
fn stores_keep_what_was_saved(rt: HostRuntime) {
    let alloc = rt.alloc();
    assert_steps(&rt, alloc, "what was saved is loaded", SAVED);
    assert_steps(&rt, alloc, "a group is loaded", TOGETHER);
    assert_steps(&rt, alloc, "incarnations are counted", COUNTED);
    assert_steps(&rt, alloc, "a connection is adopted again", ADOPTED);
}
