//! What a request asks for.

ghost use Rattle.std.specs.Prelude.{◌≡◌, IfOk};
ghost use Rattle.status_page.specs.Answering as spec;

use crate::json::json_text;
use crate::metrics::metrics_text;
use crate::page::page_text;
use crate::status::Status;
use http::StatusCode;
use std::alloc::{AllocError, Global};

/// What a request asks for.
#[derive(Clone, Copy, Debug, PartialEq, Eq)]
pub enum Wanted {
    /// The page, under `/`.
    Page,
    /// The metrics, under `/metrics`.
    Metrics,
    /// JSON, under `/status`.
    Json,
    /// Whether the server serves, under `/ready`.
    Ready,
    /// What is not there.
    Nothing,
    /// By another method than GET or HEAD.
    Change,
}

impl Wanted {
    /// What a request asks for that has this method and this path.
    pub fn of(method: &str, path: &str) -> Wanted
        ensures { result ≡ spec.wanted method.now path.now }
    {
        if method != "GET" && method != "HEAD" {
            return Wanted::Change;
        }
        match path {
            "/" => Wanted::Page,
            "/metrics" => Wanted::Metrics,
            "/status" => Wanted::Json,
            "/ready" => Wanted::Ready,
            _ => Wanted::Nothing,
        }
    }

    /// The status code of the response.
    pub fn code(self, status: &Status) -> StatusCode
        ensures { result ≡ spec.code self status.now }
    {
        match self {
            Wanted::Page | Wanted::Metrics | Wanted::Json => StatusCode::OK,
            Wanted::Ready if status.serving => StatusCode::OK,
            Wanted::Ready => StatusCode::SERVICE_UNAVAILABLE,
            Wanted::Nothing => StatusCode::NOT_FOUND,
            Wanted::Change => StatusCode::METHOD_NOT_ALLOWED,
        }
    }

    /// Of which kind the text of the response is.
    pub fn media_type(self) -> &'static str
        ensures { result.now ≡ spec.media_type self }
    {
        match self {
            Wanted::Page => "text/html; charset=utf-8",
            Wanted::Metrics => "text/plain; version=0.0.4; charset=utf-8",
            Wanted::Json => "application/json",
            Wanted::Ready | Wanted::Nothing | Wanted::Change => "text/plain; charset=utf-8",
        }
    }

    /// The text of the response. An `Err` is want of memory.
    pub fn text(self, alloc: Global, status: &Status) -> Result<Vec<u8>, AllocError>
        ensures { IfOk result (λ text. text.items ≡ spec.text self status.now) }
    {
        match self {
            Wanted::Page => page_text(alloc, status),
            Wanted::Metrics => metrics_text(alloc, status),
            Wanted::Json => json_text(alloc, status),
            Wanted::Ready if status.serving => b"it serves\n".to_vec(alloc),
            Wanted::Ready => b"it does not serve yet\n".to_vec(alloc),
            Wanted::Nothing => b"there is /, /metrics, /status and /ready\n".to_vec(alloc),
            Wanted::Change => b"there is GET and HEAD\n".to_vec(alloc),
        }
    }
}
