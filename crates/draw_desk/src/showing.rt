//! A page is shown the file.

ghost use Rattle.std.specs.Prelude.{◌≡◌, ℕ, List, [], Option, IfOk, OnErr, OnOk, codes, unwrap_or};
ghost use Rattle.http_server.specs.Response.{IsBlank};
ghost use Rattle.draw_desk.specs.Answers.{Shows, ShowsFound, Tells, TellsData, called, told_of};
ghost use Rattle.draw_desk.specs.Calls.{Reads};
ghost use Rattle.draw_desk.specs.Saving.{known_after};

use crate::answer::{Kind, plain, text_response};
use crate::claim::is_same;
use crate::desk::Desk;
use crate::json::{LayoutTold, layout_text};
use crate::known::Known;
use crate::outside::Outside;
use crate::own_text::OwnText;
use crate::saving::next_number;
use http::StatusCode;
use http_server::Response;
use std::alloc::AllocError;

const NOT_READ: &str = "the file can't be read";

const NO_MEMORY: &str = "out of memory";

/// The text that was found, nothing where there is no file.
fn text_found(found: &Option<OwnText>) -> &str
    ensures { result.now ≡ unwrap_or found.now [] }
{
    match found {
        Some(text) => text.as_str(),
        None => "",
    }
}

impl<O: Outside> Desk<O> {
    /// Shows a page the text of the file, which is known from now on. The answers of what may fail are made before.
    pub(crate) fn show(&mut self, response: &mut Response) -> Result<(), AllocError>
        requires { IsBlank response.old }
        ensures ok { OnOk result ((found : Option (Option (List ℕ))) × Shows found (called (Reads found) self.old) response.new self.new) }
        ensures err { OnErr result (self.new ≡ self.old) }
    {
        let not_read = plain(self.alloc, StatusCode::INTERNAL_SERVER_ERROR, NOT_READ)?;
        let no_memory = plain(self.alloc, StatusCode::INTERNAL_SERVER_ERROR, NO_MEMORY)?;
        match self.outside.read() {
            Ok(found) => *response = self.shown(found, no_memory),
            Err(_) => *response = not_read,
        }
        Ok(())
    }

    /// What a page is shown of what was found, which is known from now on; or that memory ran out.
    fn shown(&mut self, found: Option<OwnText>, no_memory: Response) -> Response
        requires { Tells 500 (codes "out of memory") no_memory }
        ensures { ShowsFound found self.old result self.new }
    {
        match self.told(&found) {
            Ok(response) => {
                self.learn(found);
                response
            }
            Err(_) => no_memory,
        }
    }

    /// What a page is told of what was found.
    fn told(&self, found: &Option<OwnText>) -> Result<Response, AllocError>
        ensures { IfOk result (TellsData (told_of found.now self.now)) }
    {
        let told = LayoutTold {
            file: self.file.as_str(),
            known: self.number_of(found),
            running: self.is_running(),
            text: text_found(found),
            token: self.access.token.as_str(),
            version: self.version,
        };
        let text = layout_text(self.alloc, &told)?;
        let response = text_response(self.alloc, StatusCode::OK, Kind::Json, text)?;
        Ok(response)
    }

    /// The number of what is known once this was found.
    fn number_of(&self, found: &Option<OwnText>) -> u64
        ensures { result ≡ (known_after found.now self.now.known).number }
    {
        if is_same(&self.known.text, found) {
            self.known.number
        } else {
            next_number(self.known.number)
        }
    }

    /// What was found is known from now on.
    fn learn(&mut self, found: Option<OwnText>)
        ensures { self.new ≡ record self.old { known = known_after found self.old.known } }
    {
        if is_same(&self.known.text, &found) {
            return;
        }
        self.known = Known {
            number: next_number(self.known.number),
            text: found,
        };
    }
}
