//! Chains: each public function once, and octets that bench/chain_octets.py wrote and judged, apart from the program.

ghost use Rattle.std.specs.Prelude.{◌≤◌};

use crate::same::assert_same;
use crate::values::{address, text};
use fate_chain::{
    Author, Chain, ChainFault, Content, Decree, ErrorCode, Final, Kind, SharedSubmission,
    Submission,
};
use mc_types::{Incarnation, Moment, MsgId, NodeNo};
use pdu_codec::Tlvs;
use pdu_tables::State;
use std::alloc::Global;
use std::process::Abort;

fn moment(rt: &impl Abort, seconds: u32) -> Moment {
    Moment::make(seconds).expect(rt, "a moment")
}

fn id(rt: &impl Abort) -> MsgId {
    MsgId::read(b"1000100001").expect(rt, "an id")
}

// The text of the message, without other parameters.
fn content(rt: &impl Abort, alloc: Global) -> Content {
    let text = b"Hi".to_vec(alloc).expect(rt, "memory");
    Content::of(text, Tlvs::empty(alloc))
}

// A message of sme1 to itself, from 144 to 155, of three days.
fn message(rt: &impl Abort, alloc: Global) -> Submission {
    Submission {
        submitter: text(rt, alloc, b"sme1"),
        target: text(rt, alloc, b"sme1"),
        service_type: text(rt, alloc, b""),
        source: address(rt, alloc, b"144"),
        destination: address(rt, alloc, b"155"),
        esm_class: 0,
        protocol_id: 0,
        priority_flag: 0,
        registered_delivery: 1,
        data_coding: 0,
        schedule: moment(rt, 0x386d4380),
        expiry: moment(rt, 0x38713800),
        content: content(rt, alloc),
    }
}

const TAKEN: u32 = 946684800;

const FAILED: u32 = TAKEN + 7;

const EXPIRY: u32 = 946944000;

fn begun(rt: &impl Abort, alloc: Global, seconds: u32) -> Result<Chain, ChainFault> {
    let message = message(rt, alloc);
    Chain::begin(alloc, id(rt), moment(rt, seconds), message)
}

fn taken(rt: &impl Abort, alloc: Global) -> Chain {
    begun(rt, alloc, TAKEN).expect(rt, "a chain")
}

fn read(rt: &impl Abort, alloc: Global, octets: &[u8]) -> Chain {
    Chain::read(alloc, octets).expect(rt, "a chain")
}

// That a chain is that of the message as it was taken.
fn assert_taken(rt: &impl Abort, chain: Chain) {
    let (newest, message) = (chain.newest(), chain.submission());
    let by = (
        newest.author.node.number(),
        newest.author.incarnation.number(),
        newest.moment.seconds(),
    );
    let texts = (message.destination.digits.octets(), message.content.text());
    let expiry = message.expiry.seconds();
    assert_same(rt, &by, &(1, 1, 946684800));
    assert_same(rt, &texts, &(b"155".as_slice(), b"Hi".as_slice()));
    assert_same(rt, &(chain.id(), expiry), &(id(rt), 946944000));
    assert_stands(rt, "as taken", chain, (1, State::Enroute, 0));
}

// How many decrees a chain has, its state and its error.
type Standing = (usize, State, u16);

fn standing(chain: &Chain) -> Standing {
    (chain.decrees().len(), chain.state(), chain.error())
}

// That a chain stands so, and its copy has the same error. A failure tells what is shown by it.
fn assert_stands(rt: &impl Abort, shows: &str, chain: Chain, wanted: Standing) {
    let (standing, copy) = (standing(&chain), chain.copy());
    drop(chain);
    let copy = copy.expect(rt, "memory");
    let error = copy.error();
    drop(copy);
    assert_same(rt, &(shows, standing, error), &(shows, wanted, wanted.2));
}

#[test]
fn a_message_is_taken(rt: HostRuntime) {
    assert_taken(&rt, taken(&rt, rt.alloc()));
}

#[test]
fn a_message_is_not_taken_at_its_expiry(rt: HostRuntime) {
    let refused = begun(&rt, rt.alloc(), EXPIRY).err();
    assert_same(&rt, &refused, &Some(ChainFault::NotPermitted));
}

#[test]
fn an_error_is_below_a_thousand(rt: HostRuntime) {
    let error = ErrorCode::of(999);
    let made = (ErrorCode::make(999), ErrorCode::make(1000));
    assert_same(&rt, &made, &(Some(error), None));
    assert_same(&rt, &error.number(), &999);
    let state = Final::Undeliverable.state();
    assert_same(&rt, &state, &State::Undeliverable);
}

// What a decree decides that takes no message.
#[derive(Clone, Copy)]
enum Next {
    Attempt(u8),
    Failed(u16),
    Fate(Final, u16),
    Told,
}

// A decree of an incarnation of node 1, and its moment.
type Step = (u16, u32, Next);

fn error(rt: &impl Abort, number: u16) -> ErrorCode {
    ErrorCode::make(number).expect(rt, "an error")
}

fn decree(rt: &impl Abort, (incarnation, seconds, next): Step) -> Decree {
    let author = Author {
        node: NodeNo::of(1),
        incarnation: Incarnation::make(incarnation).expect(rt, "an incarnation"),
    };
    let kind = match next {
        Next::Attempt(number) => Kind::Attempt(number),
        Next::Failed(number) => Kind::Failed(error(rt, number)),
        Next::Fate(last, number) => Kind::Fate(last, error(rt, number)),
        Next::Told => Kind::Told,
    };
    Decree {
        author,
        moment: moment(rt, seconds),
        kind,
    }
}

// A chain with one more decree.
fn extended(rt: &impl Abort, chain: Chain, decree: Decree) -> Chain {
    let longer = chain.extended(decree);
    drop(chain);
    longer.expect(rt, "a permitted decree")
}

// A message that was taken, and these decrees on it.
fn chain_of(rt: &impl Abort, alloc: Global, steps: &[Step]) -> Chain {
    let mut chain = taken(rt, alloc);
    for step in steps {
        chain = extended(rt, chain, decree(rt, *step));
    }
    chain
}

// Why a decree may not follow, if it may not, asked and given.
fn refusal(rt: &impl Abort, chain: &Chain, step: Step) -> (bool, Option<ChainFault>) {
    let decree = decree(rt, step);
    let permits = chain.permits(&decree);
    (permits, chain.extended(decree).err())
}

// That each of these decrees may not follow those. A failure tells what is shown by it.
fn assert_refused(rt: &impl Abort, alloc: Global, shows: &str, steps: &[Step], refused: &[Step]) {
    let chain = chain_of(rt, alloc, steps);
    for (number, step) in refused.iter().enumerate() {
        let refusal = refusal(rt, &chain, *step);
        let wanted = (false, Some(ChainFault::NotPermitted));
        assert_same(rt, &(shows, number, refusal), &(shows, number, wanted));
    }
}

const ATTEMPTED: &[Step] = &[(1, TAKEN, Next::Attempt(1))];

const OF_ANOTHER_END: &[Step] = &[
    (2, TAKEN, Next::Fate(Final::Delivered, 0)),
    (1, TAKEN, Next::Fate(Final::Deleted, 0)),
    (2, TAKEN, Next::Fate(Final::Deleted, 0)),
    (1, EXPIRY, Next::Fate(Final::Expired, 0)),
    (2, EXPIRY, Next::Fate(Final::Expired, 0)),
];

#[test]
fn a_later_incarnation_may_fail_an_attempt(rt: HostRuntime) {
    let chain = chain_of(&rt, rt.alloc(), ATTEMPTED);
    let failure = decree(&rt, (2, FAILED, Next::Failed(999)));
    let permits = chain.permits(&failure);
    drop(failure);
    drop(chain);
    assert!(rt; permits);
}

// Attempted by the first incarnation of node 1, and failed by the second.
const FAILED_ONCE: &[Step] = &[(1, TAKEN, Next::Attempt(1)), (2, FAILED, Next::Failed(999))];

const DELETED: &[Step] = &[(1, TAKEN, Next::Fate(Final::Deleted, 999))];

const TOO_EARLY: &[Step] = &[
    (2, FAILED + 59, Next::Attempt(2)),
    (2, FAILED + 60, Next::Attempt(3)),
    (2, EXPIRY - 1, Next::Fate(Final::Expired, 0)),
];

const DELIVERED: &[Step] = &[
    (1, TAKEN, Next::Attempt(1)),
    (2, FAILED, Next::Failed(999)),
    (2, FAILED + 60, Next::Attempt(2)),
    (2, FAILED + 60, Next::Fate(Final::Delivered, 0)),
];

const BEHIND_A_FATE: &[Step] = &[
    (2, FAILED + 60, Next::Fate(Final::Delivered, 0)),
    (2, FAILED + 60, Next::Failed(1)),
    (2, FAILED + 600, Next::Attempt(3)),
    (2, EXPIRY, Next::Fate(Final::Expired, 0)),
];

// The receipt on a fate is told by a later incarnation of the same node.
const TOLD: &[Step] = &[
    (1, TAKEN, Next::Fate(Final::Deleted, 999)),
    (3, FAILED, Next::Told),
];

const TOLD_ALONE: &[Step] = &[(1, EXPIRY, Next::Told)];

const TOLD_EARLY: &[Step] = &[(2, FAILED + 59, Next::Told)];

const BEHIND_A_TOLD: &[Step] = &[
    (3, FAILED, Next::Told),
    (4, FAILED, Next::Told),
    (3, FAILED, Next::Attempt(1)),
    (3, FAILED, Next::Failed(1)),
    (1, FAILED, Next::Fate(Final::Deleted, 999)),
    (1, EXPIRY, Next::Fate(Final::Expired, 0)),
];

// The message of a chain, taken once more by its author at its newest moment.
fn taken_again(rt: &impl Abort, alloc: Global, chain: &Chain) -> Decree {
    let message = SharedSubmission::make(alloc, message(rt, alloc));
    Decree {
        author: chain.newest().author,
        moment: chain.newest().moment,
        kind: Kind::Taken(message.expect(rt, "memory")),
    }
}

#[test]
fn a_message_is_taken_once(rt: HostRuntime) {
    let chain = chain_of(&rt, rt.alloc(), DELIVERED);
    let again = taken_again(&rt, rt.alloc(), &chain);
    let refused = chain.extended(again).err();
    drop(chain);
    assert_same(&rt, &refused, &Some(ChainFault::NotPermitted));
}

const EXPIRED: &[Step] = &[
    (1, TAKEN, Next::Attempt(1)),
    (2, FAILED, Next::Failed(999)),
    (2, EXPIRY, Next::Fate(Final::Expired, 0)),
];

// What each of these shows, the decrees on a message that was taken, and how its chain stands then.
const STANDING: &[(&str, &[Step], Standing)] = &[
    (
        "a later incarnation fails an attempt",
        FAILED_ONCE,
        (3, State::Enroute, 999),
    ),
    ("a fate has its error", DELETED, (2, State::Deleted, 999)),
    (
        "a message is delivered at its second attempt",
        DELIVERED,
        (5, State::Delivered, 0),
    ),
    (
        "a message expires at its expiry",
        EXPIRED,
        (4, State::Expired, 0),
    ),
    (
        "a fate that is told stays as it was",
        TOLD,
        (3, State::Deleted, 999),
    ),
];

#[test]
fn chains_stand(rt: HostRuntime) {
    for (shows, steps, wanted) in STANDING {
        assert_stands(&rt, shows, chain_of(&rt, rt.alloc(), steps), *wanted);
    }
}

// What each of these shows, the decrees on a message that was taken, and those each of which may not follow.
const REFUSED: &[(&str, &[Step], &[Step])] = &[
    ("an attempt ends by its author", ATTEMPTED, OF_ANOTHER_END),
    ("the second attempt waits a minute", FAILED_ONCE, TOO_EARLY),
    ("no other end follows a fate", DELIVERED, BEHIND_A_FATE),
    ("a fate is not told before it", DELIVERED, TOLD_EARLY),
    ("what is taken is not told", &[], TOLD_ALONE),
    ("an attempt is not told", ATTEMPTED, TOLD_ALONE),
    ("a failure is not told", FAILED_ONCE, TOLD_ALONE),
    ("nothing follows a Told", TOLD, BEHIND_A_TOLD),
];

#[test]
fn decrees_are_refused(rt: HostRuntime) {
    for (shows, steps, refused) in REFUSED {
        assert_refused(&rt, rt.alloc(), shows, steps, refused);
    }
}

#[test]
fn a_receipt_is_told_by_the_node_that_took_the_message(rt: HostRuntime) {
    let chain = chain_of(&rt, rt.alloc(), DELETED);
    let mut told = decree(&rt, (1, TAKEN, Next::Told));
    let by_node_1 = chain.permits(&told);
    told.author.node = NodeNo::of(2);
    let by_node_2 = chain.permits(&told);
    drop(told);
    drop(chain);
    assert_same(&rt, &(by_node_1, by_node_2), &(true, false));
}

#[test]
fn the_home_of_a_message_is_the_node_that_took_it(rt: HostRuntime) {
    let chain = chain_of(&rt, rt.alloc(), &[]);
    let mut attempt = decree(&rt, (1, TAKEN, Next::Attempt(1)));
    attempt.author.node = NodeNo::of(2);
    let chain = extended(&rt, chain, attempt);
    let (home, newest) = (chain.home(), chain.newest().author.node);
    drop(chain);
    assert_same(&rt, &(home.number(), newest.number()), &(1, 2));
}

#[test]
fn a_message_ended_with_its_fate(rt: HostRuntime) {
    let chain = chain_of(&rt, rt.alloc(), TOLD);
    let ended = chain.newest_untold().moment.seconds();
    let (fate, place) = (chain.fate(), chain.place());
    drop(chain);
    assert_same(
        &rt,
        &(fate, ended, place),
        &(Some(Final::Deleted), TAKEN, 2),
    );
}

// A message with this registered_delivery, whose first attempt ends it.
fn ended(rt: &impl Abort, alloc: Global, registered_delivery: u8, last: Final) -> Chain {
    let message = Submission {
        registered_delivery,
        ..message(rt, alloc)
    };
    let begun = Chain::begin(alloc, id(rt), moment(rt, TAKEN), message);
    let chain = begun.expect(rt, "a chain");
    let tried = extended(rt, chain, decree(rt, (1, TAKEN, Next::Attempt(1))));
    extended(rt, tried, decree(rt, (1, TAKEN, Next::Fate(last, 0))))
}

// A registered_delivery, a final state, and whether the receipt on it may be told.
const ASKED: &[(u8, Final, bool)] = &[
    (0, Final::Delivered, false),
    (0, Final::Rejected, false),
    (1, Final::Delivered, true),
    (1, Final::Rejected, true),
    (2, Final::Delivered, false),
    (2, Final::Rejected, true),
    (3, Final::Delivered, false),
    (3, Final::Rejected, false),
    (0x11, Final::Delivered, true),
];

#[test]
fn a_receipt_is_told_if_it_was_asked(rt: HostRuntime) {
    for (registered_delivery, last, may) in ASKED {
        let chain = ended(&rt, rt.alloc(), *registered_delivery, *last);
        let told = decree(&rt, (2, FAILED, Next::Told));
        let permits = chain.permits(&told);
        drop(told);
        drop(chain);
        let wanted = (registered_delivery, last, *may);
        assert_same(&rt, &(registered_delivery, last, permits), &wanted);
    }
}

// The chain of a message that was taken at the least moment.
const TAKEN_CHAIN: [u8; 61] = [
    0x02, // format
    0x00, 0x00, 0x00, 0x00, 0x3b, 0x9c, 0x50, 0xa1, // id
    0x00, 0x01, // decrees
    0x01, // taken
    0x01, 0x00, 0x01, // node and incarnation
    0x38, 0x6d, 0x43, 0x80, // moment
    0x04, 0x73, 0x6d, 0x65, 0x31, // submitter
    0x04, 0x73, 0x6d, 0x65, 0x31, // target
    0x00, // service_type
    0x01, 0x01, 0x03, 0x31, 0x34, 0x34, // source
    0x01, 0x01, 0x03, 0x31, 0x35, 0x35, // destination
    0x00, 0x00, 0x00, 0x01, 0x00, // esm_class to data_coding
    0x38, 0x6d, 0x43, 0x80, // schedule
    0x38, 0x71, 0x38, 0x00, // expiry
    0x00, 0x02, 0x48, 0x69, // text
    0x00, 0x00, // optional parameters
];

// The same as earlier programs wrote it.
const EARLIER_CHAIN: [u8; 60] = [
    0x01, // format
    0x00, 0x00, 0x00, 0x00, 0x3b, 0x9c, 0x50, 0xa1, // id
    0x00, 0x01, // decrees
    0x01, // taken
    0x01, 0x00, 0x01, // node and incarnation
    0x38, 0x6d, 0x43, 0x80, // moment
    0x04, 0x73, 0x6d, 0x65, 0x31, // submitter
    0x04, 0x73, 0x6d, 0x65, 0x31, // target
    0x00, // service_type
    0x01, 0x01, 0x03, 0x31, 0x34, 0x34, // source
    0x01, 0x01, 0x03, 0x31, 0x35, 0x35, // destination
    0x00, 0x00, 0x00, 0x01, 0x00, // esm_class to data_coding
    0x38, 0x6d, 0x43, 0x80, // schedule
    0x38, 0x71, 0x38, 0x00, // expiry
    0x02, 0x48, 0x69, // text
    0x00, 0x00, // optional parameters
];

// The octets of a chain.
fn octets_of(rt: &impl Abort, chain: Chain) -> Vec<u8> {
    let octets = chain.bytes();
    drop(chain);
    octets.expect(rt, "memory")
}

// That these are a chain's octets.
fn assert_spelled(rt: &impl Abort, chain: Chain, wanted: &[u8]) {
    let octets = octets_of(rt, chain);
    assert_same(rt, &octets.as_slice(), &wanted);
}

#[test]
fn a_chain_is_its_octets(rt: HostRuntime) {
    assert_spelled(&rt, taken(&rt, rt.alloc()), &TAKEN_CHAIN);
}

#[test]
fn what_is_written_is_read(rt: HostRuntime) {
    let octets = octets_of(&rt, chain_of(&rt, rt.alloc(), DELIVERED));
    let chain = read(&rt, rt.alloc(), &octets);
    drop(octets);
    assert_stands(&rt, "as written", chain, (5, State::Delivered, 0));
}

#[test]
fn the_chain_of_octets_is_as_taken(rt: HostRuntime) {
    assert_taken(&rt, read(&rt, rt.alloc(), &TAKEN_CHAIN));
}

#[test]
fn the_chain_of_an_earlier_program_is_read_and_written_anew(rt: HostRuntime) {
    assert_taken(&rt, read(&rt, rt.alloc(), &EARLIER_CHAIN));
    assert_spelled(&rt, read(&rt, rt.alloc(), &EARLIER_CHAIN), &TAKEN_CHAIN);
}

// Where the length of the text stands in that chain, and what stands before it.
const BEFORE_THE_TEXT: usize = 55;

// A text of so many octets, and one optional parameter with so many in its value, or none.
type Texts = (u16, Option<u16>);

// The octets of that chain with these in the place of its text and its parameters.
fn with_texts(rt: &impl Abort, alloc: Global, (text, parameter): Texts) -> Vec<u8> {
    let mut octets = Vec::new(alloc);
    let front = TAKEN_CHAIN.get(..BEFORE_THE_TEXT).expect(rt, "octets");
    octets.extend_from_slice(front).expect(rt, "memory");
    octets
        .extend_from_slice(&text.to_be_bytes())
        .expect(rt, "memory");
    octets
        .resize(BEFORE_THE_TEXT + 2 + usize::from(text), b'a')
        .expect(rt, "memory");
    let Some(value) = parameter else {
        octets.extend_from_slice(b"\0\0").expect(rt, "memory");
        return octets;
    };
    let length = value.saturating_add(4);
    octets
        .extend_from_slice(&length.to_be_bytes())
        .expect(rt, "memory");
    octets.extend_from_slice(&[0x02, 0x04]).expect(rt, "memory");
    octets
        .extend_from_slice(&value.to_be_bytes())
        .expect(rt, "memory");
    let whole = octets.len().saturating_add(usize::from(value));
    octets.resize(whole, b'b').expect(rt, "memory");
    octets
}

// What each of these shows, a text with a parameter, and whether the chain that has them is read.
const TEXTS: &[(&str, Texts, bool)] = &[
    ("an empty text", (0, None), true),
    ("the longest short_message", (254, None), true),
    ("the shortest long text", (255, None), true),
    ("the longest text", (4096, None), true),
    ("a text that is too long", (4097, None), false),
    (
        "a short_message beside 7,000 octets",
        (254, Some(6996)),
        true,
    ),
    (
        "a short_message beside 7,001 octets",
        (254, Some(6997)),
        false,
    ),
    (
        "a long text beside as many as there is room for",
        (255, Some(6737)),
        true,
    ),
    ("a long text beside one more", (255, Some(6738)), false),
    (
        "the longest text beside as many as there is room for",
        (4096, Some(2896)),
        true,
    ),
    (
        "the longest text beside one more",
        (4096, Some(2897)),
        false,
    ),
];

// How many octets the text of a chain has that is read, if one is.
fn length_read(alloc: Global, octets: &[u8]) -> Option<usize> {
    let chain = Chain::read(alloc, octets).ok()?;
    Some(chain.submission().content.text().len())
}

#[test]
fn texts_have_room_beside_what_is_passed_on(rt: HostRuntime) {
    for (shows, texts, is_read) in TEXTS {
        let octets = with_texts(&rt, rt.alloc(), *texts);
        let length = length_read(rt.alloc(), &octets);
        drop(octets);
        let wanted = is_read.then_some(usize::from(texts.0));
        assert_same(&rt, &(*shows, length), &(*shows, wanted));
    }
}

// Why octets are no chain's; none if they are.
fn fault_of(alloc: Global, octets: &[u8]) -> Option<ChainFault> {
    Chain::read(alloc, octets).err()
}

// The same of the first octets of that chain, so many, and these behind them.
fn fault_with(rt: &impl Abort, alloc: Global, length: usize, more: &[u8]) -> Option<ChainFault> {
    let front = TAKEN_CHAIN.get(..length).expect(rt, "octets");
    let octets = [front, more].concat(alloc).expect(rt, "memory");
    let fault = fault_of(alloc, &octets);
    drop(octets);
    fault
}

#[test]
fn octets_that_are_no_text_are_refused(rt: HostRuntime) {
    let alloc = rt.alloc();
    let no_text = Some(ChainFault::NotBytes);
    for length in 0..61 {
        let fault = fault_with(&rt, alloc, length, b"");
        assert_same(&rt, &(length, fault), &(length, no_text));
    }
    let longer = fault_with(&rt, alloc, 61, b"\0");
    // The text of no decree is one, but of no permitted chain.
    let none = fault_with(&rt, alloc, 9, b"\0\0");
    let wanted = (no_text, Some(ChainFault::NotPermitted));
    assert_same(&rt, &(longer, none), &wanted);
}

// What becomes of those octets with one of them changed to 00, 7f, 80 or ff, a word a place: k is a permitted chain, p a
// chain that is not permitted, and b no chain's octets.
const CHANGED: &str = "bbbb kbbb kbbb kbbb kbbb bppp bbbp bkkk bbbk kbbb bbbb bbbb \
bbbb kbbb bppp bppb bppp bkkk bbkk bbbb bkkk bkkk bkkk bkkk \
bbbb bkkk bkkk bkkk bkkk kbbb kkkk kkkk bbbb bkkk bkkk bkkk \
kkkk kkkk bbbb bkkk bkkk bkkk kkkk kkkk kkkk kkkk kkkk bppb \
bppp bkkk bbkk bkkb bkkk kkkk kkkk kbbb bbbb kkkk kkkk kbbb kbbb";

// The same of those that an earlier program wrote.
const EARLIER_CHANGED: &str = "bbbb kbbb kbbb kbbb kbbb bppp bbbp bkkk bbbk kbbb bbbb bbbb \
bbbb kbbb bppp bppb bppp bkkk bbkk bbbb bkkk bkkk bkkk bkkk \
bbbb bkkk bkkk bkkk bkkk kbbb kkkk kkkk bbbb bkkk bkkk bkkk \
kkkk kkkk bbbb bkkk bkkk bkkk kkkk kkkk kkkk kkkk kkkk bppb \
bppp bkkk bbkk bkkb bkkk kkkk kkkk bbbb kkkk kkkk kbbb kbbb";

// What becomes of octets with this one at a place.
fn changed(rt: &impl Abort, alloc: Global, whole: &[u8], place: usize, octet: u8) -> u8 {
    let mut octets = whole.to_vec(alloc).expect(rt, "memory");
    if let Some(changed) = octets.get_mut(place) {
        *changed = octet;
    }
    let fault = fault_of(alloc, &octets);
    drop(octets);
    match fault {
        None => b'k',
        Some(ChainFault::NotPermitted) => b'p',
        Some(ChainFault::NotBytes) => b'b',
        Some(ChainFault::Memory) => b'm',
    }
}

// That this becomes of octets.
fn assert_judged(rt: &impl Abort, alloc: Global, whole: &[u8], words: &str) {
    assert_same(rt, &words.split_whitespace().count(), &whole.len());
    for (place, wanted) in words.split_whitespace().enumerate() {
        let judged = [
            changed(rt, alloc, whole, place, 0x00),
            changed(rt, alloc, whole, place, 0x7f),
            changed(rt, alloc, whole, place, 0x80),
            changed(rt, alloc, whole, place, 0xff),
        ];
        assert_same(rt, &(place, judged.as_slice()), &(place, wanted.as_bytes()));
    }
}

#[test]
fn changed_octets_are_judged(rt: HostRuntime) {
    assert_judged(&rt, rt.alloc(), &TAKEN_CHAIN, CHANGED);
    assert_judged(&rt, rt.alloc(), &EARLIER_CHAIN, EARLIER_CHANGED);
}

// It is deleted by node 1, and that is told by its third incarnation seven seconds later.
const FATE: [u8; 11] = [
    0x04, 0x01, 0x00, 0x01, 0x38, 0x6d, 0x43, 0x80, 0x04, 0x03, 0xe7,
];

const TELLING: [u8; 8] = [0x05, 0x01, 0x00, 0x03, 0x38, 0x6d, 0x43, 0x87];

// A chain of one decree with these behind it, so many in all.
fn with_decrees(
    rt: &impl Abort,
    alloc: Global,
    whole: &[u8],
    count: u8,
    more: &[&[u8]],
) -> Vec<u8> {
    let mut octets = whole.to_vec(alloc).expect(rt, "memory");
    if let Some(number) = octets.get_mut(10) {
        *number = count;
    }
    for decree in more {
        octets.extend_from_slice(decree).expect(rt, "memory");
    }
    octets
}

#[test]
fn a_chain_that_is_told_is_its_octets(rt: HostRuntime) {
    let alloc = rt.alloc();
    let octets = with_decrees(&rt, alloc, &TAKEN_CHAIN, 3, &[&FATE, &TELLING]);
    assert_spelled(&rt, chain_of(&rt, alloc, TOLD), &octets);
    assert_spelled(&rt, read(&rt, alloc, &octets), &octets);
    let shows = "a Told is read";
    assert_stands(
        &rt,
        shows,
        read(&rt, alloc, &octets),
        (3, State::Deleted, 999),
    );
    drop(octets);
}

// Why octets with these decrees behind a first one are no chain, if they are none.
fn fault_behind(
    rt: &impl Abort,
    alloc: Global,
    whole: &[u8],
    count: u8,
    more: &[&[u8]],
) -> Option<ChainFault> {
    let octets = with_decrees(rt, alloc, whole, count, more);
    let fault = fault_of(alloc, &octets);
    drop(octets);
    fault
}

#[test]
fn format_2_alone_tells(rt: HostRuntime) {
    let alloc = rt.alloc();
    let told = fault_behind(&rt, alloc, &EARLIER_CHAIN, 3, &[&FATE, &TELLING]);
    let untold = fault_behind(&rt, alloc, &EARLIER_CHAIN, 2, &[&FATE]);
    // In format 2 a Told that may not stand there makes no permitted chain.
    let alone = fault_behind(&rt, alloc, &TAKEN_CHAIN, 2, &[&TELLING]);
    let longer = fault_behind(&rt, alloc, &TAKEN_CHAIN, 3, &[&FATE, &TELLING, b"\0"]);
    let no_text = Some(ChainFault::NotBytes);
    let not_permitted = Some(ChainFault::NotPermitted);
    let wanted = [no_text, None, not_permitted, no_text];
    assert_same(&rt, &[told, untold, alone, longer], &wanted);
}

// The longest chain but Told: taken, tried eight times, each failure seven seconds after its attempt, and given up by another node.
const TRIED_CHAIN: [u8; 224] = [
    // format, id and number of decrees
    0x02, 0x00, 0x00, 0x00, 0x00, 0x3b, 0x9c, 0x50, 0xa1, 0x00, 0x12,
    // taken
    0x01, 0x01, 0x00, 0x01, 0x38, 0x6d, 0x43, 0x80, 0x04, 0x73, 0x6d, 0x65, 0x31, 0x04, 0x73, 0x6d,
    0x65, 0x31, 0x00, 0x01, 0x01, 0x03, 0x31, 0x34, 0x34, 0x01, 0x01, 0x03, 0x31, 0x35, 0x35, 0x00,
    0x00, 0x00, 0x01, 0x00, 0x38, 0x6d, 0x43, 0x80, 0x38, 0x71, 0x38, 0x00, 0x00, 0x02, 0x48, 0x69,
    0x00, 0x00,
    // attempts, each with its failure
    0x02, 0x01, 0x00, 0x01, 0x38, 0x6d, 0x43, 0x80, 0x01, 0x03, 0x01, 0x00, 0x02, 0x38, 0x6d, 0x43,
    0x87, 0x00, 0x64, 0x02, 0x01, 0x00, 0x02, 0x38, 0x6d, 0x43, 0xc3, 0x02, 0x03, 0x01, 0x00, 0x03,
    0x38, 0x6d, 0x43, 0xca, 0x00, 0xc8, 0x02, 0x01, 0x00, 0x03, 0x38, 0x6d, 0x44, 0x42, 0x03, 0x03,
    0x01, 0x00, 0x04, 0x38, 0x6d, 0x44, 0x49, 0x01, 0x2c, 0x02, 0x01, 0x00, 0x04, 0x38, 0x6d, 0x44,
    0xfd, 0x04, 0x03, 0x01, 0x00, 0x05, 0x38, 0x6d, 0x45, 0x04, 0x01, 0x90, 0x02, 0x01, 0x00, 0x05,
    0x38, 0x6d, 0x45, 0xf4, 0x05, 0x03, 0x01, 0x00, 0x06, 0x38, 0x6d, 0x45, 0xfb, 0x01, 0xf4, 0x02,
    0x01, 0x00, 0x06, 0x38, 0x6d, 0x47, 0x27, 0x06, 0x03, 0x01, 0x00, 0x07, 0x38, 0x6d, 0x47, 0x2e,
    0x02, 0x58, 0x02, 0x01, 0x00, 0x07, 0x38, 0x6d, 0x48, 0x96, 0x07, 0x03, 0x01, 0x00, 0x08, 0x38,
    0x6d, 0x48, 0x9d, 0x02, 0xbc, 0x02, 0x01, 0x00, 0x08, 0x38, 0x6d, 0x4a, 0x41, 0x08, 0x03, 0x01,
    0x00, 0x09, 0x38, 0x6d, 0x4a, 0x48, 0x03, 0x20,
    // fate
    0x04, 0x09, 0x27, 0x0f, 0x38, 0x6d, 0x4c, 0x28, 0x05, 0x03, 0xe7,
];

// An attempt, and seven seconds later its failure by the next incarnation.
fn tried(rt: &impl Abort, chain: Chain, number: u8, begun: Moment, failed: Moment) -> Chain
    requires { number ≤ 8 }
{
    let incarnation = u16::from(number);
    let attempt = (incarnation, begun.seconds(), Next::Attempt(number));
    let failure = (
        incarnation + 1,
        failed.seconds(),
        Next::Failed(100 * incarnation),
    );
    let chain = extended(rt, chain, decree(rt, attempt));
    extended(rt, chain, decree(rt, failure))
}

fn tried_eight_times(rt: &impl Abort, alloc: Global) -> Chain {
    let mut chain = taken(rt, alloc);
    let mut begun = moment(rt, TAKEN);
    for number in 1..9 {
        let failed = begun.later(7);
        chain = tried(rt, chain, number, begun, failed);
        begun = failed.later(60 * u32::from(number));
    }
    extended(rt, chain, given_up(begun))
}

// It is given up by another node.
fn given_up(moment: Moment) -> Decree {
    Decree {
        author: Author {
            node: NodeNo::of(9),
            incarnation: Incarnation::of(9999),
        },
        moment,
        kind: Kind::Fate(Final::Undeliverable, ErrorCode::of(999)),
    }
}

#[test]
fn a_chain_has_19_decrees_at_most(rt: HostRuntime) {
    let chain = tried_eight_times(&rt, rt.alloc());
    let ended = chain.newest().moment;
    let told = decree(&rt, (9, ended.seconds(), Next::Told));
    let chain = extended(&rt, chain, told);
    let (copy, place) = (chain.copy(), chain.place());
    drop(chain);
    let standing = (19, State::Undeliverable, 999);
    assert_stands(&rt, "longest", copy.expect(&rt, "memory"), standing);
    assert_same(&rt, &place, &18);
}

#[test]
fn a_chain_of_eight_attempts_is_written(rt: HostRuntime) {
    let chain = tried_eight_times(&rt, rt.alloc());
    assert_spelled(&rt, chain, &TRIED_CHAIN);
}

#[test]
fn a_chain_of_eight_attempts_is_copied(rt: HostRuntime) {
    let chain = read(&rt, rt.alloc(), &TRIED_CHAIN);
    let copy = chain.copy();
    drop(chain);
    assert_spelled(&rt, copy.expect(&rt, "memory"), &TRIED_CHAIN);
}

#[test]
fn a_chain_of_eight_attempts_is_read(rt: HostRuntime) {
    let chain = read(&rt, rt.alloc(), &TRIED_CHAIN);
    assert_stands(
        &rt,
        "eight attempts",
        chain,
        (18, State::Undeliverable, 999),
    );
}
