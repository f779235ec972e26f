//! Requests and their responses, as octets of HTTP/1.1 (RFC 9110, RFC 9112).

use crate::same::assert_same;
use crate::statuses::of_two_nodes;
use http_server::serve;
use status_page::{Answers, Connection, LIMITS, Status};
use std::alloc::Global;
use std::hash::RandomState;
use std::process::Abort;
use std::random::RandomSource;

/// What is written in answer to these octets, behind which nothing comes.
fn answered<R: Abort + RandomSource>(
    rt: &R,
    alloc: Global,
    status: &Status,
    request: &[u8],
) -> Vec<u8> {
    let keys = RandomState::new(rt).expect(rt, "keys");
    let mut connection = Connection::new(alloc, keys, LIMITS);
    let mut answers = Answers::by(alloc, status);
    let mut out = Vec::new(alloc);
    let mut octets = request;
    serve(&mut connection, &mut answers, &mut octets, &mut out).expect(rt, "octets");
    out
}

/// The answer to these octets begins so.
fn assert_begins<R: Abort + RandomSource + AllocGlobal>(
    rt: &R,
    status: &Status,
    request: &str,
    wanted: &str,
) {
    let answer = answered(rt, rt.alloc(), status, request.as_bytes());
    let begins = answer.starts_with(wanted.as_bytes());
    assert_same(rt, &(request, begins), &(request, true));
}

#[test]
fn each_request_has_its_answer(rt: HostRuntime) {
    let status = of_two_nodes(&rt, rt.alloc());
    let ready =
        "HTTP/1.1 200 OK\r\nconnection: close\r\ncontent-type: text/plain; charset=utf-8\r\ncontent-length: 10\r\n\r\n";
    let absent = "HTTP/1.1 404 Not Found\r\nconnection: close\r\n";
    let change =
        "HTTP/1.1 405 Method Not Allowed\r\nconnection: close\r\ncontent-type: text/plain; charset=utf-8\r\nallow: GET, HEAD\r\n";
    let metrics =
        "HTTP/1.1 200 OK\r\nconnection: close\r\ncontent-type: text/plain; version=0.0.4; charset=utf-8\r\n";
    assert_begins(
        &rt,
        &status,
        "GET /ready HTTP/1.1\r\nHost: h\r\n\r\n",
        ready,
    );
    assert_begins(
        &rt,
        &status,
        "GET /metrics HTTP/1.1\r\nHost: h\r\n\r\n",
        metrics,
    );
    assert_begins(
        &rt,
        &status,
        "GET /ready/ HTTP/1.1\r\nHost: h\r\n\r\n",
        absent,
    );
    assert_begins(&rt, &status, "DELETE / HTTP/1.1\r\nHost: h\r\n\r\n", change);
    assert_begins(
        &rt,
        &status,
        "GET /ready HTTP/1.1\r\n\r\n",
        "HTTP/1.1 400 Bad Request\r\n",
    );
    assert_begins(
        &rt,
        &status,
        "what is this\r\n\r\n",
        "HTTP/1.1 400 Bad Request\r\n",
    );
    drop(status);
}

#[test]
fn a_server_that_does_not_serve_is_not_ready(rt: HostRuntime) {
    let status = Status::none(rt.alloc());
    let wanted = "HTTP/1.1 503 Service Unavailable\r\nconnection: close\r\n";
    assert_begins(
        &rt,
        &status,
        "GET /ready HTTP/1.1\r\nHost: h\r\n\r\n",
        wanted,
    );
    drop(status);
}

#[test]
fn nothing_behind_the_first_request_is_answered(rt: HostRuntime) {
    let status = of_two_nodes(&rt, rt.alloc());
    let twice = b"HEAD /ready HTTP/1.1\r\nHost: h\r\n\r\nGET / HTTP/1.1\r\nHost: h\r\n\r\n";
    let answer = answered(&rt, rt.alloc(), &status, twice);
    let wanted =
        b"HTTP/1.1 200 OK\r\nconnection: close\r\ncontent-type: text/plain; charset=utf-8\r\ncontent-length: 10\r\n\r\n";
    assert_same(&rt, &answer.as_slice(), &wanted.as_slice());
    drop(status);
}

#[test]
fn a_head_that_is_too_long_is_refused(rt: HostRuntime) {
    let status = Status::none(rt.alloc());
    let mut request = b"GET / HTTP/1.1\r\nHost: h\r\nA: "
        .to_vec(rt.alloc())
        .expect(&rt, "memory");
    request.resize(5_000, b'a').expect(&rt, "memory");
    let answer = answered(&rt, rt.alloc(), &status, &request);
    assert_same(&rt, &answer.starts_with(b"HTTP/1.1 431 "), &true);
    drop(status);
}
