//! How many come in a second.

use crate::same::assert_same;
use account_limits::Pace;

#[test]
fn as_many_are_let_through_in_a_second_as_the_limit_says(rt: HostRuntime) {
    let mut pace = Pace::at_rest();
    assert_same(&rt, &pace.take(5_000, 2), &true);
    assert_same(&rt, &pace.take(5_999, 2), &true);
    assert_same(&rt, &pace.take(5_999, 2), &false);
    assert_same(&rt, &pace.take(6_000, 2), &true);
    assert_same(&rt, &pace.take(6_001, 2), &true);
    assert_same(&rt, &pace.take(6_002, 2), &false);
}

#[test]
fn a_second_begins_with_the_first_that_comes(rt: HostRuntime) {
    let mut pace = Pace::at_rest();
    assert_same(&rt, &pace.take(1_900, 1), &true);
    assert_same(&rt, &pace.take(2_100, 1), &false);
    assert_same(&rt, &pace.take(2_900, 1), &true);
}

#[test]
fn none_is_let_through_by_a_limit_of_none(rt: HostRuntime) {
    let mut pace = Pace::at_rest();
    assert_same(&rt, &pace.take(0, 0), &false);
    assert_same(&rt, &pace.take(u64::MAX, 0), &false);
}

#[test]
fn a_moment_before_the_second_begins_another(rt: HostRuntime) {
    let mut pace = Pace::at_rest();
    assert_same(&rt, &pace.take(u64::MAX, 1), &true);
    assert_same(&rt, &pace.take(u64::MAX, 1), &false);
    assert_same(&rt, &pace.take(3_000, 1), &true);
}
