//! A deliver_sm without its optional parameters.

use crate::same::assert_same;
use connection_parts::without_optional;
use std::alloc::Global;
use std::process::Abort;

/// A deliver_sm (SMPP 3.4, section 4.6.1) of the text Hi from 144 to 155 with the sequence_number 7, and the same with user_message_reference 1.
const PLAIN: &[u8] = b"\0\0\0\x29\0\0\0\x05\0\0\0\0\0\0\0\x07\
\0\x01\x01144\0\x01\x01155\0\0\0\0\0\0\0\0\0\0\x02Hi";

const WITH_REFERENCE: &[u8] = b"\0\0\0\x2f\0\0\0\x05\0\0\0\0\0\0\0\x07\
\0\x01\x01144\0\x01\x01155\0\0\0\0\0\0\0\0\0\0\x02Hi\x02\x04\0\x02\0\x01";

/// The first with the greatest sequence_number (section 5.1.4), and the same with user_message_reference 1.
const LAST_PLAIN: &[u8] = b"\0\0\0\x29\0\0\0\x05\0\0\0\0\x7f\xff\xff\xff\
\0\x01\x01144\0\x01\x01155\0\0\0\0\0\0\0\0\0\0\x02Hi";

const LAST_WITH_REFERENCE: &[u8] = b"\0\0\0\x2f\0\0\0\x05\0\0\0\0\x7f\xff\xff\xff\
\0\x01\x01144\0\x01\x01155\0\0\0\0\0\0\0\0\0\0\x02Hi\x02\x04\0\x02\0\x01";

/// An enquire_link.
const ENQUIRE: &[u8] = b"\0\0\0\x10\0\0\0\x15\0\0\0\0\0\0\0\x07";

fn fitted(rt: &impl Abort, alloc: Global, octets: &[u8]) -> Option<Vec<u8>> {
    without_optional(alloc, octets).expect(rt, "memory")
}

#[test]
fn optional_parameters_are_left_out(rt: HostRuntime) {
    for (octets, plain) in [(WITH_REFERENCE, PLAIN), (LAST_WITH_REFERENCE, LAST_PLAIN)] {
        let made = fitted(&rt, rt.alloc(), octets).expect(&rt, "a deliver_sm");
        assert_same(&rt, &made.as_slice(), &plain);
    }
}

#[test]
fn what_is_no_deliver_sm_is_not_fitted(rt: HostRuntime) {
    let other = fitted(&rt, rt.alloc(), ENQUIRE);
    assert_same(&rt, &other, &None);
    let none = fitted(&rt, rt.alloc(), b"\0");
    assert_same(&rt, &none, &None);
}
