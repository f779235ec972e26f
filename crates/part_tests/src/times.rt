//! Times, as texts and as moments.

use crate::same::assert_same;
use crate::time_rows::{ABSOLUTE, RELATIVE};
use mc_types::Moment;
use smpp_time::{TimeFault, read_time, receipt_date, write_time};
use std::process::Abort;

/// What a text says at a moment: the seconds since 1970.
fn said_at(text: &[u8], now: Moment) -> Result<Option<u32>, TimeFault> {
    let read = read_time(text, now)?;
    Ok(read.map(|moment| moment.seconds()))
}

/// What it says at the start of 2000.
fn said(text: &[u8]) -> Result<Option<u32>, TimeFault> {
    said_at(text, Moment::least())
}

/// The first word of a line, and what is behind it.
fn split<'a>(rt: &impl Abort, line: &'a str) -> (&'a str, &'a str) {
    line.split_once(' ').expect(rt, "two words")
}

fn number(rt: &impl Abort, word: &str) -> u32 {
    word.parse().expect(rt, "a number")
}

fn moment(rt: &impl Abort, seconds: u32) -> Moment {
    Moment::make(seconds).expect(rt, "a moment")
}

/// That an absolute time says its seconds.
fn assert_absolute(rt: &impl Abort, line: &str) {
    let (text, seconds) = split(rt, line);
    let wanted = Ok(Some(number(rt, seconds)));
    assert_same(rt, &(line, said(text.as_bytes())), &(line, wanted));
}

#[test]
fn absolute_times_are_read(rt: HostRuntime) {
    for line in ABSOLUTE.lines() {
        assert_absolute(&rt, line);
    }
}

/// That a relative time says its seconds at a moment.
fn assert_relative(rt: &impl Abort, line: &str) {
    let (now, rest) = split(rt, line);
    let (text, seconds) = split(rt, rest);
    let now = moment(rt, number(rt, now));
    let wanted = Ok(Some(number(rt, seconds)));
    assert_same(rt, &(line, said_at(text.as_bytes(), now)), &(line, wanted));
}

#[test]
fn relative_times_are_read(rt: HostRuntime) {
    for line in RELATIVE.lines() {
        assert_relative(&rt, line);
    }
}

/// That the moment of an absolute time in UTC is written so, and that its date in a receipt is the front of that.
fn assert_written(rt: &impl Abort, line: &str) {
    let (text, seconds) = split(rt, line);
    if text.ends_with("000+") {
        let moment = moment(rt, number(rt, seconds));
        let written = write_time(moment);
        let has_date = text.as_bytes().starts_with(&receipt_date(moment));
        let wanted = (text.as_bytes(), true);
        assert_same(rt, &(written.as_slice(), has_date), &wanted);
    }
}

#[test]
fn moments_are_written(rt: HostRuntime) {
    for line in ABSOLUTE.lines() {
        assert_written(&rt, line);
    }
}

/// A line each: a text, and its fault at the last second of 2099, at which a relative time of 99 years is past the range.
const FAULTS: &str = "\
000000000000000X Shape\n\
24022912000000+ Shape\n\
2402291200000000+ Shape\n\
2402291200000O0+ Shape\n\
240230000000000+ Field\n\
230229000000000+ Field\n\
990229000000000+ Field\n\
240431000000000+ Field\n\
241301000000000+ Field\n\
240001000000000+ Field\n\
240100000000000+ Field\n\
240229240000000+ Field\n\
240229006000000+ Field\n\
240229000060000+ Field\n\
240229120000049+ Field\n\
240229120000049- Field\n\
000000000000100R Field\n\
000000000000001R Field\n\
000101000000048+ Range\n\
991231235959048- Range\n\
990000000000000R Range\n\
";

/// The fault that a word names.
fn fault_of(rt: &impl Abort, word: &str) -> TimeFault {
    match word {
        "Shape" => TimeFault::Shape,
        "Field" => TimeFault::Field,
        "Range" => TimeFault::Range,
        _ => panic!(rt; "a fault"),
    }
}

fn assert_fault(rt: &impl Abort, line: &str) {
    let (text, word) = split(rt, line);
    let now = Moment::least().later(u32::MAX);
    let wanted = Err(fault_of(rt, word));
    assert_same(rt, &(line, said_at(text.as_bytes(), now)), &(line, wanted));
}

#[test]
fn faults_are_told_lowest_first(rt: HostRuntime) {
    for line in FAULTS.lines() {
        assert_fault(&rt, line);
    }
    assert_same(&rt, &said(b""), &Ok(None));
}

/// That a time with this octet at a place is none.
fn assert_no_time(rt: &impl Abort, place: usize, other: u8) {
    let mut text = *b"240229120000000+";
    if let Some(octet) = text.get_mut(place) {
        *octet = other;
    }
    let wanted = (place, other, Err(TimeFault::Shape));
    assert_same(rt, &(place, other, said(&text)), &wanted);
}

#[test]
fn other_characters_are_no_time(rt: HostRuntime) {
    for place in 0..16 {
        assert_no_time(&rt, place, b'a');
        assert_no_time(&rt, place, b' ');
        assert_no_time(&rt, place, 0xff);
    }
}
