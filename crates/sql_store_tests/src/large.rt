//! A store of many records.

use crate::steps::{Step, assert_steps};

// A promise in the first place of the first message; then in 256 places of it, and then in those of 80 messages.
const MANY: &[Step] = &[
    Step::Runs("INSERT INTO slots VALUES (1000100001, 0, 262161, 0, x'')"),
    Step::Runs("INSERT INTO slots SELECT id, place + 1, promised, voted, chain FROM slots"),
    Step::Runs("INSERT INTO slots SELECT id, place + 2, promised, voted, chain FROM slots"),
    Step::Runs("INSERT INTO slots SELECT id, place + 4, promised, voted, chain FROM slots"),
    Step::Runs("INSERT INTO slots SELECT id, place + 8, promised, voted, chain FROM slots"),
    Step::Runs("INSERT INTO slots SELECT id, place + 16, promised, voted, chain FROM slots"),
    Step::Runs("INSERT INTO slots SELECT id, place + 32, promised, voted, chain FROM slots"),
    Step::Runs("INSERT INTO slots SELECT id, place + 64, promised, voted, chain FROM slots"),
    Step::Runs("INSERT INTO slots SELECT id, place + 128, promised, voted, chain FROM slots"),
    Step::Runs("INSERT INTO slots SELECT id + 1, place, promised, voted, chain FROM slots"),
    Step::Runs("INSERT INTO slots SELECT id + 2, place, promised, voted, chain FROM slots"),
    Step::Runs("INSERT INTO slots SELECT id + 4, place, promised, voted, chain FROM slots"),
    Step::Runs("INSERT INTO slots SELECT id + 8, place, promised, voted, chain FROM slots"),
    Step::Runs("INSERT INTO slots SELECT id + 16, place, promised, voted, chain FROM slots"),
    Step::Runs("INSERT INTO slots SELECT id + 32, place, promised, voted, chain FROM slots"),
    Step::Runs(
        "INSERT INTO slots SELECT id + 64, place, promised, voted, chain FROM slots WHERE id <= 1000100016",
    ),
    Step::Loads(Ok((
        20480,
        Some((1000100001, 0, 262161, 0)),
        Some((1000100080, 255, 262161, 0)),
    ))),
];

#[test]
fn a_store_of_20480_records_is_loaded_whole(rt: HostRuntime) {
    assert_steps(&rt, rt.alloc(), "20,480 records", MANY);
}
