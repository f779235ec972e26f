//! Each public function once.

use crate::cases::assert_same;
use pdu_tables::{Command, State, Status, Tag};

/// The names that two commands, a status, a state and a tag have by their numbers.
type Names = (
    [Option<Command>; 2],
    Option<Status>,
    Option<State>,
    Option<Tag>,
);

const NAMES: Names = (
    [Some(Command::SubmitSm), None],
    Some(Status::CancelFailed),
    Some(State::Delivered),
    Some(Tag::ScInterfaceVersion),
);

fn names() -> Names {
    (
        [Command::of_code(0x0000_0004), Command::of_code(0x0000_0103)],
        Status::of_code(0x0000_0011),
        State::of_code(2),
        Tag::of_code(0x0210),
    )
}

/// Their numbers.
const NUMBERS: (u32, u32, u8, u16) = (0x0000_0004, 0x0000_0011, 2, 0x0210);

fn numbers() -> (u32, u32, u8, u16) {
    (
        Command::SubmitSm.code(),
        Status::CancelFailed.code(),
        State::Delivered.code(),
        Tag::ScInterfaceVersion.code(),
    )
}

#[test]
fn numbers_stand_for_their_names(rt: HostRuntime) {
    assert_same(&rt, &names(), &NAMES);
    assert_same(&rt, &numbers(), &NUMBERS);
}
