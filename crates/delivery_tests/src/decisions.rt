//! What a node decides next. The message goes to the account sme1.

use crate::chains::*;
use crate::same::assert_same;
use delivery::{DueDecree, Outcome};
use fate_chain::{Author, Chain, ErrorCode, Final, Kind};
use mc_types::{Ballot, Incarnation, Moment, NodeNo};
use std::alloc::Global;
use std::process::Abort;
use synod_acceptor::Vote;
use tick_rules::{Attempted, Closing, Due, Reached, Standpoint, follow, until_due};

/// What was done with the attempt.
#[derive(Clone, Copy)]
enum Done {
    Nothing,
    Granted,
    /// It was granted, and closed: the message was delivered.
    Closed,
}

fn attempted(done: Done) -> Attempted {
    match done {
        Done::Nothing => Attempted {
            granted: false,
            closed: None,
        },
        Done::Granted => Attempted {
            granted: true,
            closed: None,
        },
        Done::Closed => Attempted {
            granted: true,
            closed: Some(closing()),
        },
    }
}

fn closing() -> Closing {
    Closing::Answered(Outcome::Delivered)
}

/// Node 1 in this incarnation, a minute after the message was taken.
fn standpoint(rt: &impl Abort, incarnation: u16) -> Standpoint {
    Standpoint {
        author: Author {
            node: NodeNo::of(1),
            incarnation: Incarnation::make(incarnation).expect(rt, "an incarnation"),
        },
        clock: Moment::make(TAKEN.saturating_add(60)).expect(rt, "a moment"),
    }
}

/// A session of the account sme1 may receive, and an attempt may begin.
const UP: Reached = Reached {
    up: true,
    begins: true,
};

/// One may receive, and no attempt may begin.
const HELD_BACK: Reached = Reached {
    up: true,
    begins: false,
};

/// None may receive.
const DOWN: Reached = Reached {
    up: false,
    begins: false,
};

/// What a node is asked.
#[derive(Clone, Copy)]
enum Asked {
    /// What is due, by what was done with the attempt, whether a cancel_sm waits, and what a tick says of the message.
    Due(Done, bool, Reached),
    /// Whether the message is deleted, if a cancel_sm waits or not.
    Deletion(bool),
    /// What is due once the attempt is closed: the message was delivered.
    End,
    /// Whether the receipt on the fate is told.
    Telling,
}

/// What a node decides after these decrees, in this incarnation.
fn decided(
    rt: &impl Abort,
    alloc: Global,
    steps: &[Step],
    incarnation: u16,
    asked: Asked,
) -> Option<Due> {
    let here = standpoint(rt, incarnation);
    let chain = chain(rt, alloc, 1, steps);
    let decided = match asked {
        Asked::Due(done, cancelled, reached) => {
            here.due(&chain, attempted(done), cancelled, reached)
        }
        Asked::Deletion(cancelled) => here.deletion(&chain, cancelled),
        Asked::End => here.end(&chain, closing()),
        Asked::Telling => here.telling(&chain),
    };
    drop(chain);
    decided
}

/// The incarnation of the node, what it is asked, and what it decides.
type Row = (u16, Asked, Option<Due>);

fn assert_decided(rt: &impl Abort, alloc: Global, steps: &[Step], rows: &[Row]) {
    for (number, (incarnation, asked, wanted)) in rows.iter().enumerate() {
        let decided = decided(rt, alloc, steps, *incarnation, *asked);
        assert_same(rt, &(number, decided), &(number, *wanted));
    }
}

const OPEN: [Step; 1] = [Step::Attempt(0, 1)];

#[test]
fn an_attempt_is_closed_lost_or_given_up(rt: HostRuntime) {
    assert_decided(
        &rt,
        rt.alloc(),
        &OPEN,
        &[
            (
                1,
                Asked::Due(Done::Closed, false, UP),
                Some(Due::Close(closing())),
            ),
            (1, Asked::Due(Done::Granted, false, UP), None),
            (2, Asked::Due(Done::Nothing, true, UP), Some(Due::Lose)),
            (1, Asked::Due(Done::Nothing, false, DOWN), Some(Due::GiveUp)),
            (1, Asked::Due(Done::Nothing, false, HELD_BACK), None),
            (1, Asked::Due(Done::Granted, false, DOWN), None),
            (1, Asked::End, Some(Due::Close(closing()))),
            (2, Asked::End, None),
        ],
    );
}

#[test]
fn a_message_that_waits_is_deleted_before_it_is_attempted(rt: HostRuntime) {
    let alloc = rt.alloc();
    let first = Some(Due::Decree(DueDecree::Attempt(1)));
    let on_taken = [
        (1, Asked::Due(Done::Nothing, false, UP), first),
        (1, Asked::Due(Done::Nothing, true, UP), Some(Due::Delete)),
        (1, Asked::Due(Done::Nothing, false, HELD_BACK), None),
        (
            1,
            Asked::Due(Done::Nothing, true, HELD_BACK),
            Some(Due::Delete),
        ),
        (1, Asked::Deletion(true), Some(Due::Delete)),
        (1, Asked::Deletion(false), None),
    ];
    let on_open = [
        (1, Asked::Due(Done::Nothing, true, UP), None),
        (1, Asked::Deletion(true), None),
    ];
    assert_decided(&rt, alloc, &[], &on_taken);
    assert_decided(&rt, alloc, &OPEN, &on_open);
    assert_decided(&rt, alloc, TOLD_DELIVERED, &on_open);
}

#[test]
fn a_fate_of_which_a_receipt_is_asked_is_told_once(rt: HostRuntime) {
    let alloc = rt.alloc();
    let told = [
        (1, Asked::Due(Done::Nothing, false, DOWN), Some(Due::Told)),
        (2, Asked::Due(Done::Nothing, true, UP), Some(Due::Told)),
        (1, Asked::Telling, Some(Due::Told)),
    ];
    let nothing = [
        (1, Asked::Due(Done::Nothing, false, UP), None),
        (1, Asked::Telling, None),
    ];
    assert_decided(&rt, alloc, TO_EXPIRED, &told);
    assert_decided(&rt, alloc, TO_DELETED, &told);
    assert_decided(&rt, alloc, TOLD_EXPIRED, &nothing);
    assert_decided(&rt, alloc, TOLD_DELETED, &nothing);
    assert_decided(&rt, alloc, &[], &[(1, Asked::Telling, None)]);
}

/// How many seconds after the message was taken something is due after these decrees, for node 1 in this incarnation; none if it is now.
fn due_after(
    rt: &impl Abort,
    alloc: Global,
    steps: &[Step],
    incarnation: u16,
    by: (Done, Reached),
) -> Option<u32> {
    let (done, reached) = by;
    let author = standpoint(rt, incarnation).author;
    let chain = chain(rt, alloc, 1, steps);
    let until = until_due(author, &chain, attempted(done), reached);
    drop(chain);
    Some(until?.seconds().saturating_sub(TAKEN))
}

const FAILED: [Step; 2] = [Step::Attempt(0, 1), Step::Failed(30, 100)];

#[test]
fn nothing_is_due_until_the_expiry_or_the_next_attempt(rt: HostRuntime) {
    let alloc = rt.alloc();
    let found = [
        due_after(&rt, alloc, &[], 1, (Done::Nothing, UP)),
        due_after(&rt, alloc, &[], 1, (Done::Nothing, DOWN)),
        due_after(&rt, alloc, &[], 1, (Done::Nothing, HELD_BACK)),
        due_after(&rt, alloc, &FAILED, 1, (Done::Nothing, UP)),
        due_after(&rt, alloc, &FAILED, 1, (Done::Nothing, DOWN)),
        due_after(&rt, alloc, &FAILED, 1, (Done::Nothing, HELD_BACK)),
    ];
    let expiry = Some(259_200);
    assert_same(
        &rt,
        &found,
        &[None, expiry, expiry, Some(90), expiry, expiry],
    );
}

#[test]
fn nothing_is_due_while_an_attempt_is_open(rt: HostRuntime) {
    let alloc = rt.alloc();
    let found = [
        due_after(&rt, alloc, &OPEN, 1, (Done::Granted, DOWN)),
        due_after(&rt, alloc, &OPEN, 1, (Done::Nothing, DOWN)),
        due_after(&rt, alloc, &OPEN, 1, (Done::Closed, UP)),
        due_after(&rt, alloc, &OPEN, 2, (Done::Granted, UP)),
    ];
    assert_same(&rt, &found, &[Some(2_395_785_599), None, None, None]);
}

#[test]
fn nothing_is_due_behind_a_told(rt: HostRuntime) {
    let found = due_after(&rt, rt.alloc(), TOLD_DELIVERED, 1, (Done::Nothing, UP));
    assert_same(&rt, &found, &Some(2_395_785_599));
}

/// The final state in which a chain ends, its error, and how many seconds after the message was taken.
fn end_of(chain: &Chain) -> Option<(Final, u16, u32)> {
    let newest = chain.newest();
    match newest.kind {
        Kind::Fate(last, code) => {
            let after = newest.moment.seconds().saturating_sub(TAKEN);
            Some((last, code.number(), after))
        }
        _ => None,
    }
}

/// How the message ends after these decrees, once node 1 deletes it in its first incarnation.
fn deleted(rt: &impl Abort, alloc: Global, steps: &[Step]) -> Option<(Final, u16, u32)> {
    let here = standpoint(rt, 1);
    let chain = chain(rt, alloc, 1, steps);
    let due = here.deletion(&chain, true).expect(rt, "it is deleted");
    let ended = here.behind(&chain, due);
    drop(chain);
    let ended = ended.expect(rt, "memory");
    let end = end_of(&ended);
    drop(ended);
    end
}

#[test]
fn a_decree_is_not_before_the_newest(rt: HostRuntime) {
    let alloc = rt.alloc();
    let early = [Step::Attempt(0, 1), Step::Failed(30, 100)];
    let late = [Step::Attempt(0, 1), Step::Failed(90, 100)];
    let early = deleted(&rt, alloc, &early);
    let late = deleted(&rt, alloc, &late);
    let wanted = (Some((Final::Deleted, 0, 60)), Some((Final::Deleted, 0, 90)));
    assert_same(&rt, &(early, late), &wanted);
}

#[test]
fn decrees_have_the_errors_of_the_profile(rt: HostRuntime) {
    let none = ErrorCode::of(0);
    let found = [
        failure_of(Due::GiveUp.kind(none)),
        failure_of(Due::Lose.kind(none)),
        failure_of(Closing::GivenUp.kind()),
        failure_of(Due::Delete.kind(none)),
    ];
    assert_same(&rt, &found, &[Some(998), Some(999), Some(998), None]);
}

/// The error of an attempt that failed.
fn failure_of(kind: Kind) -> Option<u16> {
    match kind {
        Kind::Failed(error) => Some(error.number()),
        _ => None,
    }
}

#[test]
fn a_vote_beyond_what_is_known_is_followed(rt: HostRuntime) {
    let alloc = rt.alloc();
    let taken = chain(&rt, alloc, 1, &[]);
    let open = chain(&rt, alloc, 1, &OPEN);
    let vote = vote(&rt, alloc);
    let places = places(&taken, &open, &vote);
    drop(vote);
    drop(open);
    drop(taken);
    assert_same(&rt, &places, &[Some(1), Some(1), None, None]);
}

/// The places of the chains that are followed: of the vote after the message was taken, if nothing is known, and once the attempt is
/// open, and then with no vote.
fn places(taken: &Chain, open: &Chain, vote: &Vote) -> [Option<u8>; 4] {
    [
        place(follow(Some(taken), Some(vote))),
        place(follow(None, Some(vote))),
        place(follow(Some(open), Some(vote))),
        place(follow(Some(open), None)),
    ]
}

/// A vote for the attempt that is open.
fn vote(rt: &impl Abort, alloc: Global) -> Vote {
    let incarnation = Incarnation::make(1).expect(rt, "an incarnation");
    Vote {
        ballot: Ballot::make(1, incarnation, NodeNo::of(1)).expect(rt, "a ballot"),
        chain: chain(rt, alloc, 1, &OPEN),
    }
}

fn place(chain: Option<&Chain>) -> Option<u8> {
    match chain {
        Some(chain) => Some(chain.place()),
        None => None,
    }
}
