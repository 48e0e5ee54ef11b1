//! What a request asks, or why it is refused.

ghost use Rattle.std.specs.Prelude.{◌≡◌, MatchOption, false, true};
ghost use Rattle.std.specs.Str.{is_utf8};
ghost use Rattle.panel_desk.specs.Asked.{asked, command_asked, is_given, line_asked, shown, state_asked};
ghost use Rattle.panel_desk.specs.Seen.{field_sent};

use crate::command_line::read_panel_command;
use crate::panel_command::PanelCommand;
use crate::refusal::Refusal;
use node_lines::replay_words::name_and_number;
use node_lines::{Layout, decimal};
use std::marker::Model;

/// The most bytes of a command.
const LONGEST: usize = 512;

/// By what a panel knows who may ask, and who may command.
#[derive(Drop)]
pub struct Access<'a> {
    /// Its address and port, as a browser writes them into `Host`.
    pub host: &'a [u8],
    /// The origin of its page, as a browser writes it into `Origin`.
    pub origin: &'a [u8],
    /// The token that its page is given.
    pub token: &'a [u8],
}

impl<'a> Model for Access<'a> {
    ghost use Rattle.panel_desk.specs.Seen.{AccessView};

    ghost Value = { AccessView };

    ghost view = { λ a. record { host = a.host.now; origin = a.origin.now; token = a.token.now } };
}

/// What of a request is looked at.
#[derive(Drop)]
pub struct Sent<'a> {
    pub method: &'a str,
    /// The path, with what stands after a question mark.
    pub target: &'a str,
    /// The fields `Host`, `Origin` and `X-Token`. One that stands twice counts as none.
    pub host: Option<&'a [u8]>,
    pub origin: Option<&'a [u8]>,
    pub token: Option<&'a [u8]>,
    pub body: &'a [u8],
}

impl<'a> Model for Sent<'a> {
    ghost use Rattle.panel_desk.specs.Seen.{SentView, field_sent};

    ghost Value = { SentView };

    ghost view = { λ s. record { method = s.method.now; target = s.target.now; host = field_sent s.host; origin = field_sent s.origin; token = field_sent s.token; body = s.body.now } };
}

/// What a request asks.
#[derive(Drop)]
pub enum Request {
    /// The page.
    Page,
    /// What doesn't change while the panel runs: the plan, the layout, and the page's token.
    Station,
    /// The numbers, as Prometheus reads them.
    Metrics,
    /// What was told after a number.
    State { after: u64 },
    Command(PanelCommand),
}

/// What a request asks of a panel, or the first reason to refuse it. It answers always, and asks for no memory.
pub fn read_request(
    layout: &Layout,
    access: &Access<'_>,
    sent: &Sent<'_>,
) -> Result<Request, Refusal>
    ensures { result ≡ asked layout.now access.now sent.now }
{
    if !is_given(access.host, sent.host) {
        return Err(Refusal::ForeignHost);
    }
    match sent.target {
        "/" => shown(sent.method, Request::Page),
        "/station" => shown(sent.method, Request::Station),
        "/metrics" => shown(sent.method, Request::Metrics),
        "/command" => command(layout, access, sent),
        target => state(sent.method, target),
    }
}

/// Whether a field was sent, and says what is wanted.
fn is_given(wanted: &[u8], field: Option<&[u8]>) -> bool
    ensures { result ≡ is_given wanted.now (field_sent field.entry) }
{
    match field {
        Some(field) => field == wanted,
        None => false,
    }
}

/// What is shown to whoever asks for it.
fn shown(method: &str, request: Request) -> Result<Request, Refusal>
    ensures { result ≡ shown method.now request }
{
    if method != "GET" {
        return Err(Refusal::WrongMethod);
    }
    Ok(request)
}

/// The state after a number.
fn state(method: &str, target: &str) -> Result<Request, Refusal>
    ensures { result ≡ state_asked method.now target.now }
{
    let Ok(("/state?after", number)) = name_and_number(target) else {
        return Err(Refusal::NoSuchTarget);
    };
    if method != "GET" {
        return Err(Refusal::WrongMethod);
    }
    match decimal(number) {
        Ok(after) => Ok(Request::State { after }),
        Err(_) => Err(Refusal::NoNumber),
    }
}

/// A command.
fn command(layout: &Layout, access: &Access<'_>, sent: &Sent<'_>) -> Result<Request, Refusal>
    ensures { result ≡ command_asked layout.now access.now sent.now }
{
    if sent.method != "POST" {
        return Err(Refusal::WrongMethod);
    }
    if !is_given(access.origin, sent.origin) {
        return Err(Refusal::ForeignOrigin);
    }
    if !is_given(access.token, sent.token) {
        return Err(Refusal::NoToken);
    }
    if sent.body.len() > LONGEST {
        return Err(Refusal::TooLong);
    }
    line(layout, sent.body)
}

/// The command that a body says.
fn line(layout: &Layout, body: &[u8]) -> Result<Request, Refusal>
    ensures { result ≡ line_asked layout.now body.now }
{
    let Some(line) = text_of(body) else {
        return Err(Refusal::NoText);
    };
    match read_panel_command(layout, line) {
        Ok(command) => Ok(Request::Command(command)),
        Err(fault) => Err(Refusal::Line(fault)),
    }
}

/// Bytes as text, if they are UTF-8.
#[tactic(auto, using(crate::proofs::Texts::is_text, crate::proofs::Texts::is_no_text))]
fn text_of(bytes: &[u8]) -> Option<&str>
    ensures { MatchOption result (is_utf8 bytes.now ≡ false) (λ text. (text.now ≡ bytes.now) × (is_utf8 bytes.now ≡ true)) }
{
    match str::from_utf8(bytes) {
        Ok(text) => Some(text),
        Err(_) => None,
    }
}
