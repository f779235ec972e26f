//! A worker's place.

use crate::pushes::{answer, job};
use crate::same::assert_same;
use connection_parts::Place;

/// The sequence_number of what is told.
fn told(place: &mut Place) -> Option<u32> {
    let told = place.told()?;
    let sequence = told.pdu().sequence;
    drop(told);
    Some(sequence)
}

#[test]
fn an_answer_to_what_was_sent_is_told_once(rt: HostRuntime) {
    let alloc = rt.alloc();
    let mut place = Place::free();
    let idle = (place.is_free(), place.is_idle(), place.is_shut());
    let given = (place.give(job(&rt, alloc, 7)), place.take(), place.send());
    let waiting = (place.waits(), place.is_free(), place.is_idle());
    let answered = [
        place.answer(8, answer(&rt, alloc, 8)),
        place.answer(7, answer(&rt, alloc, 7)),
    ];
    let told = [told(&mut place), told(&mut place)];
    place.end();
    let over = (place.waits(), place.is_free());
    drop(place);
    assert_same(&rt, &idle, &(true, true, false));
    assert_same(&rt, &given, &(true, Some(job(&rt, alloc, 7)), true));
    assert_same(
        &rt,
        &(waiting, answered),
        &((true, false, false), [false, true]),
    );
    assert_same(&rt, &(told, over), &([Some(7), None], (false, true)));
}

#[test]
fn an_answer_to_what_was_not_sent_tells_nothing(rt: HostRuntime) {
    let alloc = rt.alloc();
    let mut place = Place::free();
    let given = [
        place.give(job(&rt, alloc, 7)),
        place.give(job(&rt, alloc, 8)),
    ];
    let answered = place.answer(7, answer(&rt, alloc, 7));
    let late = (place.take(), place.send(), told(&mut place));
    let over = (place.take().is_none(), place.is_idle());
    drop(place);
    assert_same(&rt, &(given, answered), &([true, false], true));
    assert_same(&rt, &late, &(Some(job(&rt, alloc, 7)), false, None));
    assert_same(&rt, &over, &(true, false));
}

#[test]
fn a_job_that_is_over_before_it_is_taken_is_taken_once(rt: HostRuntime) {
    let alloc = rt.alloc();
    let mut place = Place::free();
    let given = [place.give(job(&rt, alloc, 7)), place.give_up(7)];
    let idle = [place.is_idle(), place.is_free()];
    let late = (place.take(), place.take().is_none(), place.send());
    place.end();
    let again = [place.give(job(&rt, alloc, 8)), place.is_idle()];
    place.shut();
    let shut = (place.take(), place.send(), place.take().is_none());
    drop(place);
    assert_same(&rt, &(given, idle), &([true, true], [false, false]));
    assert_same(&rt, &late, &(Some(job(&rt, alloc, 7)), true, false));
    assert_same(&rt, &again, &[true, false]);
    assert_same(&rt, &shut, &(Some(job(&rt, alloc, 8)), false, true));
}

#[test]
fn a_job_that_is_given_up_has_no_answer(rt: HostRuntime) {
    let alloc = rt.alloc();
    let mut place = Place::free();
    let sent = [
        place.give(job(&rt, alloc, 7)),
        place.take().is_some(),
        place.send(),
    ];
    let given_up = [place.give_up(8), place.give_up(7), place.give_up(7)];
    let late = (
        place.waits(),
        place.answer(7, answer(&rt, alloc, 7)),
        told(&mut place),
    );
    drop(place);
    assert_same(&rt, &(sent, given_up), &([true; 3], [false, true, false]));
    assert_same(&rt, &late, &(false, false, None));
}

#[test]
fn a_job_of_a_place_that_is_shut_has_no_answer(rt: HostRuntime) {
    let alloc = rt.alloc();
    let mut place = Place::free();
    let sent = [
        place.give(job(&rt, alloc, 7)),
        place.take().is_some(),
        place.send(),
    ];
    place.shut();
    let late = (
        place.waits(),
        place.answer(7, answer(&rt, alloc, 7)),
        told(&mut place),
    );
    place.end();
    let shut = (
        place.is_shut(),
        place.is_idle(),
        place.give(job(&rt, alloc, 8)),
    );
    drop(place);
    assert_same(&rt, &(sent, late), &([true; 3], (false, false, None)));
    assert_same(&rt, &shut, &(true, false, false));
}
