//! The desk at which requests are answered.

ghost use Rattle.std.specs.Prelude.{◌≡◌, ◌<◌, [], IfOk, OnErr, OnOk, length};
ghost use Rattle.http_server.specs.Response.{IsBlank, IsResponse};
ghost use Rattle.run_numbers.specs.Metrics.{nothing_told};
ghost use Rattle.panel_desk.specs.Lines.{noted_at, numbered, told};
ghost use Rattle.panel_desk.specs.Asked.{asked, refusal_text, status};
ghost use Rattle.panel_desk.specs.Answers.{AnsweredTo, Taken, fields_with, sent_of};
ghost use Rattle.panel_desk.specs.declared.answer.Kind.TheVariants.{Plain};

use crate::Board;
use crate::answer::{Kind, fill};
use crate::head::sent;
use crate::panel_command::PanelCommand;
use crate::refusal::Refusal;
use crate::request::{Access, Request, read_request};
use bytes::Bytes;
use http::{Request as Incoming, StatusCode};
use http_server::{Response, Service};
use node_lines::Checked;
use run_numbers::{NumbersTold, metrics_text};
use std::alloc::{AllocError, Global};
use std::marker::Model;
use std::mem;

/// The most commands that wait for the next round.
const MOST: usize = 64;

/// What is answered where too many commands wait.
const TOO_MANY: &str = "too many commands wait";

/// By what a desk knows who may ask, and who may command, as it keeps it (`Access`).
#[derive(Drop)]
pub struct OwnAccess {
    pub host: String,
    pub origin: String,
    pub token: String,
}

impl Model for OwnAccess {
    ghost use Rattle.std.specs.Prelude.{string_bytes};
    ghost use Rattle.panel_desk.specs.Seen.{AccessView};

    ghost Value = { AccessView };

    ghost view = { λ a. record { host = string_bytes a.host; origin = string_bytes a.origin; token = string_bytes a.token } };
}

impl OwnAccess {
    /// What a request is judged by.
    fn lent(&self) -> Access<'_>
        ensures { result ≡ self.now }
    {
        Access {
            host: self.host.as_bytes(),
            origin: self.origin.as_bytes(),
            token: self.token.as_bytes(),
        }
    }
}

/// The desk at which requests are answered. Commands wait on it for the next round.
pub struct Desk {
    alloc: Global,
    table: Checked,
    access: OwnAccess,
    page: Bytes,
    station: Bytes,
    board: Board,
    numbers: NumbersTold,
    waiting: Vec<PanelCommand>,
}

// Written by hand, so that it is proved and compiled here alone.
impl Drop for Desk {
    fn drop(self) {
        let Self {
            alloc: _,
            table: _,
            access: _,
            page: _,
            station: _,
            board: _,
            numbers: _,
            waiting: _,
        } = self;
    }
}

impl Model for Desk {
    ghost use Rattle.panel_desk.specs.Answers.{DeskView};

    ghost Value = { DeskView };

    ghost view = { λ d. record { site = d.table; access = d.access; page = d.page; station = d.station; board = d.board; numbers = d.numbers; waiting = d.waiting.items } };
}

impl Desk {
    /// A desk of a panel. No command waits on it, and no number was told.
    pub fn new(
        alloc: Global,
        table: Checked,
        access: OwnAccess,
        page: Bytes,
        station: Bytes,
        board: Board,
    ) -> Result<Desk, AllocError>
        ensures { IfOk result (λ desk. desk ≡ record { site = table; access = access; page = page; station = station; board = board; numbers = nothing_told; waiting = [] }) }
    {
        Ok(Desk {
            alloc,
            table,
            access,
            page,
            station,
            board,
            numbers: NumbersTold::nothing(alloc)?,
            waiting: Vec::new(alloc),
        })
    }

    /// How many places for lines there are.
    pub fn places(&self) -> usize
        ensures { result ≡ length self.now.board.shown }
    {
        self.board.places()
    }

    /// What follows is told at the next number.
    pub fn count(&mut self)
        ensures { self.new ≡ record self.old { board = numbered self.old.board } }
    {
        self.board.count();
    }

    /// Shows a line at a place.
    pub fn show(&mut self, place: usize, line: &str) -> Result<(), AllocError>
        requires { place < length self.old.board.shown }
        ensures done { OnOk result (self.new ≡ record self.old { board = told place line.now self.old.board }) }
        ensures failed { OnErr result (self.new ≡ self.old) }
    {
        self.board.show(self.alloc, place, line)
    }

    /// Notes a line in the log.
    pub fn note(&mut self, line: &str) -> Result<(), AllocError>
        ensures done { OnOk result (self.new ≡ record self.old { board = noted_at line.now self.old.board }) }
        ensures failed { OnErr result (self.new ≡ self.old) }
    {
        self.board.note(self.alloc, line)
    }

    /// These numbers were told.
    pub fn tell_numbers(&mut self, numbers: NumbersTold)
        ensures { self.new ≡ record self.old { numbers = numbers } }
    {
        self.numbers = numbers;
    }

    /// Hands out the commands that wait, in the order in which they came.
    pub fn take(&mut self) -> Vec<PanelCommand>
        ensures handed_out { result.items ≡ self.old.waiting }
        ensures left { self.new ≡ record self.old { waiting = [] } }
    {
        mem::replace(&mut self.waiting, Vec::new(self.alloc))
    }

    /// What a request asks, or why it is refused.
    fn asked(&self, request: &Incoming<Bytes>) -> Result<Request, Refusal>
        ensures { result ≡ asked self.now.site self.now.access (sent_of request.now) }
    {
        read_request(self.table.layout(), &self.access.lent(), &sent(request))
    }

    /// Answers what was asked.
    fn answer(
        &mut self,
        asked: Result<Request, Refusal>,
        response: &mut Response,
    ) -> Result<(), AllocError>
        requires { IsBlank response.old }
        ensures ok { OnOk result (AnsweredTo asked self.old response.new self.new) }
        ensures err { OnErr result (self.new ≡ self.old) }
    {
        match asked {
            Ok(Request::Page) => fill(response, StatusCode::OK, Kind::Html, self.page.clone()?),
            Ok(Request::Station) => fill(
                response,
                StatusCode::OK,
                Kind::Json,
                self.station.clone()?,
            ),
            Ok(Request::Metrics) => {
                let text = metrics_text(self.alloc, &self.numbers)?;
                let body = Bytes::from_string(text)?;
                fill(response, StatusCode::OK, Kind::Metrics, body)
            }
            Ok(Request::State { after }) => {
                let text = self.board.state(self.alloc, after)?;
                let body = Bytes::from_string(text)?;
                fill(response, StatusCode::OK, Kind::Json, body)
            }
            Ok(Request::Command(command)) => self.queue(command, response),
            Err(refusal) => refuse(refusal, response),
        }
    }

    /// A command waits for the next round, unless too many wait.
    fn queue(&mut self, command: PanelCommand, response: &mut Response) -> Result<(), AllocError>
        requires { IsBlank response.old }
        ensures ok { OnOk result (Taken command self.old response.new self.new) }
        ensures err { OnErr result (self.new ≡ self.old) }
    {
        if self.waiting.len() >= MOST {
            let body = Bytes::from_static(TOO_MANY.as_bytes());
            return fill(response, StatusCode::SERVICE_UNAVAILABLE, Kind::Plain, body);
        }
        self.waiting.reserve(1)?;
        fill(response, StatusCode::ACCEPTED, Kind::Plain, Bytes::new())?;
        let _ = self.waiting.push(command);
        Ok(())
    }
}

impl Service for Desk {
    ghost use Rattle.panel_desk.specs.Answers.{Answered};

    ghost answers = { λ old request response new. Answered old request response new };

    fn call(
        &mut self,
        request: &Incoming<Bytes>,
        response: &mut Response,
    ) -> Result<(), AllocError> {
        let asked = self.asked(request);
        self.answer(asked, response)
    }
}

/// Tells why a request is refused.
fn refuse(refusal: Refusal, response: &mut Response) -> Result<(), AllocError>
    requires { IsBlank response.old }
    ensures { OnOk result (IsResponse (status refusal) (fields_with Plain) (refusal_text refusal) response.new) }
{
    let status = status_of(refusal);
    fill(
        response,
        status,
        Kind::Plain,
        Bytes::from_static(refusal.text().as_bytes()),
    )
}

/// The status of a refusal.
fn status_of(refusal: Refusal) -> StatusCode
    ensures { result ≡ status refusal }
{
    match StatusCode::from_u16(refusal.status()) {
        Ok(status) => status,
        Err(_) => StatusCode::BAD_REQUEST,
    }
}
