//! What a request asks, or why it is refused.

ghost use Rattle.std.specs.Prelude.{◌≡◌, MatchOption, false, true};
ghost use Rattle.std.specs.Str.{is_utf8};
ghost use Rattle.draw_desk.specs.Asked.{asked, is_given, posted, shown, word_of};
ghost use Rattle.draw_desk.specs.Seen.{field_sent};

use crate::access::Access;
use crate::refusal::Refusal;
use std::marker::Model;

/// The most bytes of a text.
const LONGEST: usize = 1_048_576;

/// The words by which a panel is started, and stopped.
const START: &[u8] = b"start";

const STOP: &[u8] = b"stop";

/// What of a request is looked at.
#[derive(Drop)]
pub struct Sent<'a> {
    pub method: &'a str,
    /// The path, with what stands after a question mark.
    pub target: &'a str,
    /// The fields `Host`, `Origin`, `X-Token` and `X-Known`. One that stands twice counts as none.
    pub host: Option<&'a [u8]>,
    pub origin: Option<&'a [u8]>,
    pub token: Option<&'a [u8]>,
    pub known: Option<&'a [u8]>,
    pub body: &'a [u8],
}

impl<'a> Model for Sent<'a> {
    ghost use Rattle.draw_desk.specs.Seen.{SentView, field_sent};

    ghost Value = { SentView };

    ghost view = { λ s. record { method = s.method.now; target = s.target.now; host = field_sent s.host; origin = field_sent s.origin; token = field_sent s.token; known = field_sent s.known; body = s.body.now } };
}

/// What a request asks.
#[derive(Clone, Copy)]
pub enum Request {
    /// The page.
    Page,
    /// The text of the file, by what it is known, and what else a page is told.
    Layout,
    /// What the check says of a text.
    Check,
    /// That a text is written into the file.
    Save,
    /// That a panel of the text that was checked last starts.
    Start,
    /// That it ends.
    Stop,
}

/// What a request asks of a desk, or the first reason to refuse it. It answers always, and asks for no memory.
pub fn read_request(access: &Access<'_>, sent: &Sent<'_>) -> Result<Request, Refusal>
    ensures { result ≡ asked access.now sent.now }
{
    if !is_given(access.host, sent.host) {
        return Err(Refusal::ForeignHost);
    }
    match sent.target {
        "/" => shown(sent.method, Request::Page),
        "/layout" => shown(sent.method, Request::Layout),
        "/check" => posted(access, sent, Ok(Request::Check)),
        "/save" => posted(access, sent, Ok(Request::Save)),
        "/run" => posted(access, sent, word_of(sent.body)),
        _ => Err(Refusal::NoSuchTarget),
    }
}

/// Whether a field was sent, and says what is wanted.
fn is_given(wanted: &[u8], field: Option<&[u8]>) -> bool
    ensures { result ≡ is_given wanted.now (field_sent field.entry) }
{
    match field {
        Some(field) => field == wanted,
        None => false,
    }
}

/// What is shown to whoever asks for it.
fn shown(method: &str, request: Request) -> Result<Request, Refusal>
    ensures { result ≡ shown method.now request }
{
    if method != "GET" {
        return Err(Refusal::WrongMethod);
    }
    Ok(request)
}

/// What is done for the page alone.
fn posted(
    access: &Access<'_>,
    sent: &Sent<'_>,
    request: Result<Request, Refusal>,
) -> Result<Request, Refusal>
    ensures { result ≡ posted access.now sent.now request }
{
    if sent.method != "POST" {
        return Err(Refusal::WrongMethod);
    }
    if !is_given(access.origin, sent.origin) {
        return Err(Refusal::ForeignOrigin);
    }
    if !is_given(access.token, sent.token) {
        return Err(Refusal::NoToken);
    }
    if sent.body.len() > LONGEST {
        return Err(Refusal::TooLong);
    }
    request
}

/// What a word asks of a panel.
fn word_of(word: &[u8]) -> Result<Request, Refusal>
    ensures { result ≡ word_of word.now }
{
    if word == START {
        Ok(Request::Start)
    } else if word == STOP {
        Ok(Request::Stop)
    } else {
        Err(Refusal::NoSuchWord)
    }
}

/// Bytes as text, if they are UTF-8.
#[tactic(auto, using(crate::proofs::Texts::is_text, crate::proofs::Texts::is_no_text))]
pub(crate) fn text_of(bytes: &[u8]) -> Option<&str>
    ensures { MatchOption result (is_utf8 bytes.now ≡ false) (λ text. (text.now ≡ bytes.now) × (is_utf8 bytes.now ≡ true)) }
{
    match str::from_utf8(bytes) {
        Ok(text) => Some(text),
        Err(_) => None,
    }
}
