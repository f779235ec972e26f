//! How far a node of the server is in its incarnation.

use crate::same::assert_same;
use serve_nodes::{Course, Need};

/// What is done with the course of an incarnation that was begun while the server serves, and then whether a tick has come, whether the node may be served, whether
/// it is not through with its first tick, and why it is to start anew.
const COURSES: &[(&str, (bool, bool, bool, &str))] = &[
    ("", (false, false, true, "")),
    ("tick", (true, false, true, "")),
    ("tick tick", (true, false, true, "")),
    ("serve", (false, false, true, "")),
    ("tick serve", (true, true, true, "")),
    ("tick serve tick", (true, true, true, "")),
    ("tick settle", (true, false, false, "")),
    ("tick settle serve", (true, true, false, "")),
    ("serials", (false, false, true, "serials")),
    ("store", (false, false, true, "store")),
    ("serials store", (false, false, true, "store")),
    ("store serials", (false, false, true, "store")),
    ("tick serve serials settle", (true, true, false, "serials")),
];

/// From which serial on a node gives them, how many it has given, and whether few are left.
const SERIALS: &[(u32, u64, bool)] = &[
    (1, 0, false),
    (1, 89_998, false),
    (1, 89_999, true),
    (80_001, 9_999, false),
    (80_001, 10_000, true),
    (90_000, 4_999, false),
    (90_000, 5_000, true),
    (99_999, 0, false),
    (99_999, 1, true),
];

fn do_with(course: &mut Course, word: &str) {
    match word {
        "tick" => course.tick(),
        "serials" => course.need(Need::Serials),
        "store" => course.need(Need::Store),
        "settle" => {
            course.settle();
        }
        "serve" => {
            course.serve();
        }
        _ => {}
    }
}

fn need_of(course: &Course) -> &'static str {
    match course.wanted() {
        Some(Need::Serials) => "serials",
        Some(Need::Store) => "store",
        None => "",
    }
}

fn course_of(words: &str) -> Course {
    let mut course = Course::anew();
    for word in words.split(' ') {
        do_with(&mut course, word);
    }
    course
}

fn counted(serials: u64) -> Course {
    let mut course = Course::anew();
    for _ in 0..serials {
        course.count_serial();
    }
    course
}

#[test]
fn a_node_is_served_behind_a_tick(rt: HostRuntime) {
    for (words, wanted) in COURSES {
        let course = course_of(words);
        let told = (
            course.has_ticked(),
            course.serves(),
            course.is_anew(),
            need_of(&course),
        );
        assert_same(&rt, &(words, told), &(words, *wanted));
    }
}

#[test]
fn service_and_settling_begin_once(rt: HostRuntime) {
    let mut course = course_of("tick");
    assert_same(&rt, &(course.serve(), course.serve()), &(true, false));
    assert_same(&rt, &(course.settle(), course.settle()), &(true, false));
    assert_same(&rt, &course_of("").serve(), &false);
}

#[test]
fn few_serials_are_ten_thousand_or_half(rt: HostRuntime) {
    for (first, given, wanted) in SERIALS {
        let has_few = counted(*given).has_few_serials(*first);
        assert_same(&rt, &(*first, *given, has_few), &(*first, *given, *wanted));
    }
}
