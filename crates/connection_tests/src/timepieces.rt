//! By what moments a server goes.

use crate::same::assert_same;
use connection_parts::Timepiece;

/// 2024-01-31T00:00:00Z, in seconds since 1970.
const BEGUN: u64 = 1_706_659_200;

/// What is told behind readings, of seconds since the begin by both clocks, and how often the system's clock stepped.
fn told(readings: &[(u64, u64)]) -> (u32, u32) {
    let mut piece = Timepiece::make(0, BEGUN * 1_000);
    let mut steps = 0u32;
    for (steady, system) in readings {
        let system = BEGUN.saturating_add(*system).saturating_mul(1_000);
        if piece.read(steady.saturating_mul(1_000), system) {
            steps = steps.saturating_add(1);
        }
    }
    let seconds = piece.moment().seconds();
    drop(piece);
    (seconds.saturating_sub(BEGUN as u32), steps)
}

#[test]
fn time_goes_on_whatever_the_clock_of_the_system_does(rt: HostRuntime) {
    // A clock that is near is followed, and time does not go back.
    assert_same(&rt, &told(&[(1, 1), (2, 4), (3, 3)]), &(4, 0));
    // One that steps ahead for some seconds is not.
    assert_same(&rt, &told(&[(1, 1), (2, 2_592_002), (7, 7)]), &(7, 1));
    // One that stays ahead for ten minutes is.
    assert_same(&rt, &told(&[(1, 3_601), (600, 4_200)]), &(600, 1));
    assert_same(&rt, &told(&[(1, 3_601), (601, 4_201)]), &(4_201, 1));
    // One that stays behind is waited for, while time goes on at half its pace.
    assert_same(
        &rt,
        &told(&[(4_000, 4_000), (4_001, 401), (4_601, 1_001)]),
        &(4_301, 1),
    );
    assert_same(
        &rt,
        &told(&[(4_000, 4_000), (4_001, 401), (4_601, 1_001), (4_603, 1_003)]),
        &(4_302, 1),
    );
}
