//! A text is written into the file, where what stands there may be written over.

ghost use Rattle.std.specs.Prelude.{◌≡◌, ℕ, IfOk, OnErr, OnOk, codes};
ghost use Rattle.std.specs.Fmt.{decimal};
ghost use Rattle.http_server.specs.Response.{IsBlank};
ghost use Rattle.draw_desk.specs.Answers.{Stored, Tells, outcome_status, outcome_text};
ghost use Rattle.draw_desk.specs.Saving.{claim_of, next_number};
ghost use Rattle.draw_desk.specs.Seen.{field_sent};
ghost use Rattle.draw_desk.specs.declared.saving.Outcome.{Outcome as Outcomes};

use crate::answer::{Kind, plain, text_response};
use crate::claim::{Claim, claim_of, may_write};
use crate::desk::Desk;
use crate::known::Known;
use crate::outside::Outside;
use crate::own_text::OwnText;
use http::StatusCode;
use http_server::Response;
use std::alloc::{AllocError, Global};

/// What came of a save.
#[derive(Clone, Copy)]
pub(crate) enum Outcome {
    /// What stands in the file can't be read.
    NotRead,
    /// Another text stands there than the page knows.
    Changed,
    NotWritten,
    Saved,
}

/// What is told of each outcome.
#[derive(Drop)]
struct SaveAnswers {
    not_read: Response,
    changed: Response,
    not_written: Response,
    saved: Response,
}

const NOT_READ: &str = "the file can't be read";

const CHANGED: &str = "the file changed meanwhile";

const NOT_WRITTEN: &str = "the file can't be written";

/// The number of what is known next.
pub(crate) fn next_number(number: u64) -> u64
    ensures { result ≡ next_number number }
{
    number.saturating_add(1)
}

/// That a text was saved: the number by which it is known.
fn told_saved(alloc: Global, number: u64) -> Result<Response, AllocError>
    ensures { IfOk result (Tells 200 (decimal (next_number number))) }
{
    let next = next_number(number);
    let text = format!(in alloc; "{next}")?;
    text_response(alloc, StatusCode::OK, Kind::Plain, text)
}

impl SaveAnswers {
    /// What is told of each outcome, where the text known last has a number. All are made before anything is done.
    fn of(alloc: Global, number: u64) -> Result<SaveAnswers, AllocError>
        ensures not_read { IfOk result (λ all. Tells 500 (codes "the file can't be read") all.not_read) }
        ensures changed { IfOk result (λ all. Tells 409 (codes "the file changed meanwhile") all.changed) }
        ensures not_written { IfOk result (λ all. Tells 500 (codes "the file can't be written") all.not_written) }
        ensures saved { IfOk result (λ all. Tells 200 (decimal (next_number number)) all.saved) }
    {
        Ok(SaveAnswers {
            not_read: plain(alloc, StatusCode::INTERNAL_SERVER_ERROR, NOT_READ)?,
            changed: plain(alloc, StatusCode::CONFLICT, CHANGED)?,
            not_written: plain(alloc, StatusCode::INTERNAL_SERVER_ERROR, NOT_WRITTEN)?,
            saved: told_saved(alloc, number)?,
        })
    }

    /// What is told of an outcome.
    fn told(self, outcome: Outcome) -> Response
        ensures { (number : ℕ) → Tells 500 (codes "the file can't be read") self.not_read → Tells 409 (codes "the file changed meanwhile") self.changed → Tells 500 (codes "the file can't be written") self.not_written → Tells 200 (decimal (next_number number)) self.saved → Tells (outcome_status outcome) (outcome_text number outcome) result }
    {
        let SaveAnswers {
            not_read,
            changed,
            not_written,
            saved,
        } = self;
        match outcome {
            Outcome::NotRead => not_read,
            Outcome::Changed => changed,
            Outcome::NotWritten => not_written,
            Outcome::Saved => saved,
        }
    }
}

impl<O: Outside> Desk<O> {
    /// Writes a text into the file, where a page that claims this may write over what is found there, and answers what came of
    /// it.
    pub(crate) fn save(
        &mut self,
        claimed: Option<&[u8]>,
        text: &str,
        response: &mut Response,
    ) -> Result<(), AllocError>
        requires { IsBlank response.old }
        ensures ok { OnOk result ((outcome : Outcomes) × Stored (claim_of self.old.known.number (field_sent claimed.entry)) text.now self.old outcome self.new × Tells (outcome_status outcome) (outcome_text self.old.known.number outcome) response.new) }
        ensures err { OnErr result (self.new ≡ self.old) }
    {
        let number = self.known.number;
        let claim = claim_of(self.alloc, number, claimed)?;
        let kept = OwnText::of(self.alloc, text)?;
        let answers = SaveAnswers::of(self.alloc, number)?;
        let outcome = self.store(claim, kept);
        *response = answers.told(outcome);
        Ok(())
    }

    /// Reads the file, and writes the text where it may be written. It needs no memory of its own.
    fn store(&mut self, claim: Claim, text: OwnText) -> Outcome
        ensures { Stored claim text self.old result self.new }
    {
        let Ok(found) = self.outside.read() else {
            return Outcome::NotRead;
        };
        if !may_write(claim, &self.known.text, &found) {
            return Outcome::Changed;
        }
        if self.outside.write(text.as_str()).is_err() {
            return Outcome::NotWritten;
        }
        self.known = Known {
            number: next_number(self.known.number),
            text: Some(text),
        };
        Outcome::Saved
    }
}
