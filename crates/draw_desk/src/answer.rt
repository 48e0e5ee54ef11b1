//! Answers, with the fields that each has.

ghost use Rattle.std.specs.Prelude.{◌≡◌, [], IfOk, OnOk, string_bytes};
ghost use Rattle.http_header.specs.FieldValue.{plain_value};
ghost use Rattle.http_server.specs.Response.{IsBlank, IsResponse};
ghost use Rattle.draw_desk.specs.Answers.{fields_with, kind_text};
ghost use Rattle.draw_desk.specs.declared.answer.Kind.TheVariants.{Plain};

use bytes::Bytes;
use http::header::{CACHE_CONTROL, CONTENT_TYPE, X_CONTENT_TYPE_OPTIONS, X_FRAME_OPTIONS};
use http::{HeaderValue, StatusCode};
use http_server::Response;
use std::alloc::{AllocError, Global};

/// What an answer has.
#[derive(Clone, Copy)]
pub(crate) enum Kind {
    Html,
    Json,
    Plain,
}

impl Kind {
    /// How it is named in its field.
    fn value(self) -> HeaderValue
        ensures { result ≡ plain_value (kind_text self) }
    {
        match self {
            Kind::Html => HeaderValue::from_static("text/html; charset=utf-8"),
            Kind::Json => HeaderValue::from_static("application/json"),
            Kind::Plain => HeaderValue::from_static("text/plain; charset=utf-8"),
        }
    }
}

/// Adds the fields of an answer of a kind. No other page shows it in a frame, and nothing keeps it.
fn add_fields(response: &mut Response, kind: Kind) -> Result<(), AllocError>
    requires { IsBlank response.old }
    ensures { OnOk result (IsResponse 200 (fields_with kind) [] response.new) }
{
    response.add_header(CONTENT_TYPE, kind.value())?;
    response.add_header(CACHE_CONTROL, HeaderValue::from_static("no-store"))?;
    response.add_header(X_FRAME_OPTIONS, HeaderValue::from_static("DENY"))?;
    response.add_header(X_CONTENT_TYPE_OPTIONS, HeaderValue::from_static("nosniff"))
}

/// Fills an answer of a kind.
pub(crate) fn fill(
    response: &mut Response,
    status: StatusCode,
    kind: Kind,
    body: Bytes,
) -> Result<(), AllocError>
    requires { IsBlank response.old }
    ensures { OnOk result (IsResponse status (fields_with kind) body response.new) }
{
    add_fields(response, kind)?;
    response.status = status;
    response.body.push(body)
}

/// Fills an answer of a kind with a text.
pub(crate) fn fill_text(
    response: &mut Response,
    status: StatusCode,
    kind: Kind,
    text: String,
) -> Result<(), AllocError>
    requires { IsBlank response.old }
    ensures { OnOk result (IsResponse status (fields_with kind) (string_bytes text) response.new) }
{
    let body = Bytes::from_string(text)?;
    fill(response, status, kind, body)
}

/// An answer of a kind with a text.
pub(crate) fn text_response(
    alloc: Global,
    status: StatusCode,
    kind: Kind,
    text: String,
) -> Result<Response, AllocError>
    ensures { IfOk result (IsResponse status (fields_with kind) (string_bytes text)) }
{
    let mut response = Response::new(alloc);
    fill_text(&mut response, status, kind, text)?;
    Ok(response)
}

/// An answer in words, which is made before anything is done, so that it is there whatever comes of it.
pub(crate) fn plain(
    alloc: Global,
    status: StatusCode,
    words: &'static str,
) -> Result<Response, AllocError>
    ensures { IfOk result (IsResponse status (fields_with Plain) words.now) }
{
    let mut response = Response::new(alloc);
    let body = Bytes::from_static(words.as_bytes());
    fill(&mut response, status, Kind::Plain, body)?;
    Ok(response)
}
