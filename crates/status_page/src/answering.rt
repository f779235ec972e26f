//! The answers to requests.

ghost use Rattle.std.specs.Prelude.{◌≡◌, OnOk};
ghost use Rattle.http_server.specs.Response.{IsBlank};
ghost use Rattle.status_page.specs.Answering.{IsAnswer, IsAnswerTo};

use crate::status::Status;
use crate::wanted::Wanted;
use bytes::{BufMut, Bytes};
use http::{HeaderValue, Request, header};
use http_server::{Config, Response, Service};
use http1::Limits;
use std::alloc::{AllocError, Global};

/// What a connection takes: a head of 4,096 octets, and no content to speak of.
pub const LIMITS: Config = Config {
    limits: Limits {
        max_head_len: 4_096,
        max_extensions_len: 64,
        max_trailers_len: 64,
    },
    max_body_len: 64,
    max_pending: 0,
    read_size: 1_024,
};

/// The answers to requests, by what a server tells of itself.
#[derive(Drop)]
pub struct Answers<'a> {
    alloc: Global,
    status: &'a Status,
}

impl<'a> Answers<'a> {
    /// Those by this.
    pub fn by(alloc: Global, status: &'a Status) -> Answers<'a>
        ensures { result.status.now ≡ status.now }
    {
        Answers { alloc, status }
    }

    /// Answers what a request asks for. An `Err` is want of memory.
    fn answer(&self, wanted: Wanted, response: &mut Response) -> Result<(), AllocError>
        requires { IsBlank response.old }
        ensures { OnOk result (IsAnswerTo wanted self.now.status.now response.new) }
    {
        response.status = wanted.code(self.status);
        response.add_header(header::CONNECTION, HeaderValue::from_static("close"))?;
        let kind = HeaderValue::from_static(wanted.media_type());
        response.add_header(header::CONTENT_TYPE, kind)?;
        if wanted == Wanted::Change {
            response.add_header(header::ALLOW, HeaderValue::from_static("GET, HEAD"))?;
        }
        let text = wanted.text(self.alloc, self.status)?;
        response.body.put_slice(&text)
    }
}

impl Service for Answers<'_> {
    ghost answers = { λ before request response after. IsAnswer before.status.now request response × (after ≡ before) };

    fn call(
        &mut self,
        request: &Request<Bytes>,
        response: &mut Response,
    ) -> Result<(), AllocError> {
        let wanted = Wanted::of(request.method().as_str(), request.uri().path());
        self.answer(wanted, response)
    }
}
