//! Answers, with the fields that each has.

ghost use Rattle.std.specs.Prelude.{◌≡◌, OnOk};
ghost use Rattle.http_header.specs.FieldValue.{plain_value};
ghost use Rattle.http_server.specs.Response.{IsBlank, IsResponse};
ghost use Rattle.panel_desk.specs.Answers.{fields_with, kind_text};

use bytes::Bytes;
use http::header::{CACHE_CONTROL, CONTENT_TYPE, X_CONTENT_TYPE_OPTIONS, X_FRAME_OPTIONS};
use http::{HeaderValue, StatusCode};
use http_server::Response;
use std::alloc::AllocError;

/// What an answer has.
#[derive(Clone, Copy)]
pub(crate) enum Kind {
    Html,
    Json,
    /// The text of Prometheus, in its version 0.0.4.
    Metrics,
    Plain,
}

impl Kind {
    /// How it is named in its field.
    fn value(self) -> HeaderValue
        ensures { result ≡ plain_value (kind_text self) }
    {
        match self {
            Kind::Html => HeaderValue::from_static("text/html; charset=utf-8"),
            Kind::Json => HeaderValue::from_static("application/json"),
            Kind::Metrics => HeaderValue::from_static("text/plain; version=0.0.4"),
            Kind::Plain => HeaderValue::from_static("text/plain; charset=utf-8"),
        }
    }
}

/// Fills an answer of a kind. No other page shows it in a frame, and nothing keeps it.
pub(crate) fn fill(
    response: &mut Response,
    status: StatusCode,
    kind: Kind,
    body: Bytes,
) -> Result<(), AllocError>
    requires { IsBlank response.old }
    ensures { OnOk result (IsResponse status (fields_with kind) body response.new) }
{
    response.status = status;
    response.add_header(CONTENT_TYPE, kind.value())?;
    response.add_header(CACHE_CONTROL, HeaderValue::from_static("no-store"))?;
    response.add_header(X_FRAME_OPTIONS, HeaderValue::from_static("DENY"))?;
    response.add_header(X_CONTENT_TYPE_OPTIONS, HeaderValue::from_static("nosniff"))?;
    response.body.push(body)
}
