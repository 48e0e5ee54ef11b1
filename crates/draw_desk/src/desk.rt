//! The desk at which requests are answered.

ghost use Rattle.std.specs.Prelude.{◌≡◌, ◌++◌, ℕ, [], Option, OnErr, OnOk, codes, true};
ghost use Rattle.std.specs.Fmt.{decimal};
ghost use Rattle.std.specs.Str.{is_utf8};
ghost use Rattle.http_server.specs.Response.{IsBlank};
ghost use Rattle.draw_desk.specs.Answers.{AnsweredTo, BeginsAt, ChecksIf, SavesIf, StartedIf, Tells, TellsData, is_running, stopped, verdict_told};
ghost use Rattle.draw_desk.specs.Asked.{refusal_text, status};
ghost use Rattle.draw_desk.specs.Opened.{begun, is_turning, panel_of};
ghost use Rattle.draw_desk.specs.declared.panel_asked.PanelStage.TheVariants as stages;

use crate::access::OwnAccess;
use crate::answer::{Kind, fill, fill_text};
use crate::head::sent;
use crate::json::verdict_text;
use crate::known::{Checked, Known};
use crate::outside::{Outside, Verdict};
use crate::own_text::OwnText;
use crate::panel_asked::{PanelAsked, PanelStage};
use crate::refusal::Refusal;
use crate::request::{Request, Sent, read_request, text_of};
use bytes::Bytes;
use http::{Request as Incoming, StatusCode};
use http_server::{Response, Service};
use std::alloc::{AllocError, Global};
use std::marker::Model;
use std::mem;

const RUNS_ALREADY: &str = "a panel runs already";

const NOT_CHECKED: &str = "nothing was checked yet";

const NO_PORT: &str = "no port can be opened";

/// The desk at which requests are answered.
#[derive(Drop)]
pub struct Desk<O: Outside> {
    pub(crate) alloc: Global,
    pub(crate) access: OwnAccess,
    pub(crate) page: Bytes,
    /// The path of the file.
    pub(crate) file: OwnText,
    pub(crate) version: &'static str,
    pub(crate) known: Known,
    /// What was checked last.
    pub(crate) checked: Option<Checked>,
    pub(crate) stage: PanelStage,
    pub outside: O,
}

impl<O: Outside> Model for Desk<O> {
    ghost use Rattle.draw_desk.specs.Answers.{DeskView};

    ghost Value = { DeskView };

    ghost view = { λ d. record { access = d.access; page = d.page; file = d.file; version = d.version.now; known = d.known; checked = d.checked; stage = d.stage; calls = O.calls d.outside } };
}

impl<O: Outside> Desk<O> {
    /// Whether a panel runs, or is asked for.
    pub(crate) fn is_running(&self) -> bool
        ensures { result ≡ is_running self.now.stage }
    {
        !matches!(self.stage, PanelStage::Idle)
    }

    /// Whether a panel is to begin, or to end.
    pub fn is_turning(&self) -> bool
        ensures { result ≡ is_turning self.now.stage }
    {
        matches!(self.stage, PanelStage::Asked(_) | PanelStage::Stopping)
    }

    /// The panel that is to begin, if one is. It runs from now on.
    pub fn begin_panel(&mut self) -> Option<PanelAsked>
        ensures panel { result ≡ panel_of self.old.stage }
        ensures stage { self.new ≡ record self.old { stage = begun self.old.stage } }
    {
        match mem::replace(&mut self.stage, PanelStage::Running) {
            PanelStage::Asked(asked) => Some(asked),
            stage => {
                self.stage = stage;
                None
            }
        }
    }

    /// The panel has ended.
    pub fn end_panel(&mut self)
        ensures { self.new ≡ record self.old { stage = stages.Idle } }
    {
        self.stage = PanelStage::Idle;
    }

    /// Answers what was asked.
    fn answer(
        &mut self,
        asked: Result<Request, Refusal>,
        sent: &Sent<'_>,
        response: &mut Response,
    ) -> Result<(), AllocError>
        requires { IsBlank response.old }
        ensures ok { OnOk result (AnsweredTo O.judges asked sent.now self.old response.new self.new) }
        ensures err { OnErr result (self.new ≡ self.old) }
    {
        match asked {
            Ok(Request::Page) => fill(response, StatusCode::OK, Kind::Html, self.page.clone()?),
            Ok(Request::Layout) => self.show(response),
            Ok(Request::Check) => self.check_body(sent.body, response),
            Ok(Request::Save) => self.save_body(sent, response),
            Ok(Request::Start) => self.start(response),
            Ok(Request::Stop) => self.stop(response),
            Err(refusal) => refuse(refusal, response),
        }
    }

    /// Checks a text, if it is one.
    fn check_body(&mut self, body: &[u8], response: &mut Response) -> Result<(), AllocError>
        requires { IsBlank response.old }
        ensures ok { OnOk result (ChecksIf O.judges (is_utf8 body.now) body.now self.old response.new self.new) }
        ensures err { OnErr result (self.new ≡ self.old) }
    {
        match text_of(body) {
            Some(text) => self.check(text, response),
            None => refuse(Refusal::NoText, response),
        }
    }

    /// Checks a text, which is the one that was checked last from now on.
    fn check(&mut self, text: &str, response: &mut Response) -> Result<(), AllocError>
        requires { IsBlank response.old }
        ensures ok { OnOk result (ChecksIf O.judges true text.now self.old response.new self.new) }
        ensures err { OnErr result (self.new ≡ self.old) }
    {
        let verdict = self.outside.judge(self.alloc, text)?;
        let text = OwnText::of(self.alloc, text)?;
        self.tell_verdict(&verdict, response)?;
        self.checked = Some(Checked { text, verdict });
        Ok(())
    }

    /// Tells what was said of a text.
    fn tell_verdict(&self, verdict: &Verdict, response: &mut Response) -> Result<(), AllocError>
        requires { IsBlank response.old }
        ensures { OnOk result (TellsData (verdict_told verdict.now (is_running self.now.stage)) response.new) }
    {
        let told = verdict_text(self.alloc, verdict, self.is_running())?;
        fill_text(response, StatusCode::OK, Kind::Json, told)
    }

    /// Saves a text, if it is one.
    fn save_body(&mut self, sent: &Sent<'_>, response: &mut Response) -> Result<(), AllocError>
        requires { IsBlank response.old }
        ensures ok { OnOk result (SavesIf O.judges (is_utf8 sent.now.body) sent.now self.old response.new self.new) }
        ensures err { OnErr result (self.new ≡ self.old) }
    {
        match text_of(sent.body) {
            Some(text) => self.save(sent.known, text, response),
            None => refuse(Refusal::NoText, response),
        }
    }

    /// Asks for a panel of the text that was checked last, where it is sound and no panel runs.
    fn start(&mut self, response: &mut Response) -> Result<(), AllocError>
        requires { IsBlank response.old }
        ensures ok { OnOk result (StartedIf (is_running self.old.stage) self.old response.new self.new) }
        ensures err { OnErr result (self.new ≡ self.old) }
    {
        if self.is_running() {
            return refuse_start(RUNS_ALREADY, response);
        }
        let Some(checked) = &self.checked else {
            return refuse_start(NOT_CHECKED, response);
        };
        if checked.verdict.status != 0 {
            let why = String::from_str(self.alloc, checked.verdict.err.as_str())?;
            return fill_text(response, StatusCode::CONFLICT, Kind::Plain, why);
        }
        let text = OwnText::of(self.alloc, checked.text.as_str())?;
        self.begin(text, response)
    }

    /// Asks for a panel of a text, at a port that is opened for it.
    fn begin(&mut self, text: OwnText, response: &mut Response) -> Result<(), AllocError>
        requires { IsBlank response.old }
        ensures ok { OnOk result ((port : Option ℕ) × BeginsAt port text self.old response.new self.new) }
        ensures err { OnErr result (self.new ≡ self.old) }
    {
        let Ok(port) = self.outside.open_port() else {
            let body = Bytes::from_static(NO_PORT.as_bytes());
            return fill(
                response,
                StatusCode::INTERNAL_SERVER_ERROR,
                Kind::Plain,
                body,
            );
        };
        tell_panel(self.alloc, port, response)?;
        self.stage = PanelStage::Asked(PanelAsked { text, port });
        Ok(())
    }

    /// The panel is to end, if one runs.
    fn stop(&mut self, response: &mut Response) -> Result<(), AllocError>
        requires { IsBlank response.old }
        ensures ok { OnOk result (Tells 200 [] response.new × (self.new ≡ record self.old { stage = stopped self.old.stage })) }
        ensures err { OnErr result (self.new ≡ self.old) }
    {
        fill(response, StatusCode::OK, Kind::Plain, Bytes::new())?;
        self.stage = match self.stage {
            PanelStage::Running | PanelStage::Stopping => PanelStage::Stopping,
            _ => PanelStage::Idle,
        };
        Ok(())
    }
}

impl<O: Outside> Service for Desk<O> {
    ghost use Rattle.draw_desk.specs.Answers.{Answered};

    ghost answers = { λ old request response new. Answered O.judges old request response new };

    fn call(
        &mut self,
        request: &Incoming<Bytes>,
        response: &mut Response,
    ) -> Result<(), AllocError> {
        let head = sent(request);
        let asked = read_request(&self.access.lent(), &head);
        self.answer(asked, &head, response)
    }
}

/// Tells where a panel is to be.
fn tell_panel(alloc: Global, port: u16, response: &mut Response) -> Result<(), AllocError>
    requires { IsBlank response.old }
    ensures { OnOk result (Tells 200 (codes "http://127.0.0.1:" ++ decimal port ++ codes "/\n") response.new) }
{
    let address = format!(in alloc; "http://127.0.0.1:{port}/\n")?;
    fill_text(response, StatusCode::OK, Kind::Plain, address)
}

/// Tells why no panel is started.
fn refuse_start(why: &'static str, response: &mut Response) -> Result<(), AllocError>
    requires { IsBlank response.old }
    ensures { OnOk result (Tells 409 why.now response.new) }
{
    let body = Bytes::from_static(why.as_bytes());
    fill(response, StatusCode::CONFLICT, Kind::Plain, body)
}

/// Tells why a request is refused.
fn refuse(refusal: Refusal, response: &mut Response) -> Result<(), AllocError>
    requires { IsBlank response.old }
    ensures { OnOk result (Tells (status refusal) (refusal_text refusal) response.new) }
{
    let status = status_of(refusal);
    let body = Bytes::from_static(refusal.text().as_bytes());
    fill(response, status, Kind::Plain, body)
}

/// The status of a refusal.
fn status_of(refusal: Refusal) -> StatusCode
    ensures { result ≡ status refusal }
{
    match StatusCode::from_u16(refusal.status()) {
        Ok(status) => status,
        Err(_) => StatusCode::BAD_REQUEST,
    }
}
