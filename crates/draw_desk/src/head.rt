//! What of a request's head is looked at.

ghost use Rattle.std.specs.Prelude.{◌≡◌};
ghost use Rattle.http.specs.Request.{body_of, head_of};
ghost use Rattle.http_header.specs.HeaderMap.{get_all};
ghost use Rattle.http_header.specs.Token.{lowercase};
ghost use Rattle.draw_desk.specs.Seen.{field_sent};
ghost use Rattle.draw_desk.specs.Answers.{only, sent_of, target_of};

use crate::request::Sent;
use bytes::Bytes;
use http::{HeaderMap, Request, Uri};

/// What of a request is looked at.
pub(crate) fn sent(request: &Request<Bytes>) -> Sent<'_>
    ensures { result ≡ sent_of request.now }
{
    let headers = request.headers();
    Sent {
        method: request.method().as_str(),
        target: target(request.uri()),
        host: field(headers, "host"),
        origin: field(headers, "origin"),
        token: field(headers, "x-token"),
        known: field(headers, "x-known"),
        body: request.body().as_slice(),
    }
}

/// The path with its query. A target that names a host of its own has none here.
fn target(uri: &Uri) -> &str
    ensures { result.now ≡ target_of uri.now }
{
    if uri.authority().is_some() {
        return "";
    }
    match uri.path_and_query() {
        Some(target) => target.as_str(),
        None => "",
    }
}

/// A field that was sent once.
fn field<'a>(headers: &'a HeaderMap, name: &'static str) -> Option<&'a [u8]>
    ensures { field_sent result ≡ only (get_all headers.now (lowercase name.now)) }
{
    let mut values = headers.get_all(name).iter();
    let value = values.next()?;
    if values.next().is_some() {
        return None;
    }
    Some(value.as_bytes())
}
