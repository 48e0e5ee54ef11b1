//! What was asked for in a turn is noted in the log, with its answer.

ghost use Rattle.std.specs.Prelude.{OnOk};
ghost use Rattle.panel_desk.specs.Boards.{Notes};

use crate::noting::Noting;
use panel_desk::{
    Answer, AnswerText, Checked, Command, Desk, DisturbanceText, Event, Layout, PanelCommand,
    Refused, StandingOrderText, write_event,
};
use station_drive::Station;
use std::alloc::{AllocError, Global};

/// What each line of the log begins with: how many milliseconds have passed.
#[derive(Clone, Copy)]
pub(crate) struct LogLines {
    pub(crate) alloc: Global,
    pub(crate) millis: u64,
}

impl LogLines {
    /// Notes what was asked for in a turn, and the events to which that led, with what the station answered.
    pub(crate) fn note_turn<S: Station>(
        &self,
        station: &Noting<S>,
        commands: &[PanelCommand],
        events: &[Event],
        desk: &mut Desk,
    ) -> Result<(), AllocError>
        ensures { OnOk result (Notes desk.old desk.new) }
    {
        let table = station.table();
        self.note_commands(table.layout(), commands, desk)?;
        let cancels_all = is_all_cancelled(commands);
        self.note_answers(table, events, &station.answers, cancels_all, desk)
    }

    /// Notes each cancel of all routes, each disturbance, and each standing order.
    fn note_commands(
        &self,
        layout: &Layout,
        commands: &[PanelCommand],
        desk: &mut Desk,
    ) -> Result<(), AllocError>
        ensures { OnOk result (Notes desk.old desk.new) }
    {
        for command in commands {
            self.note_command(layout, command, desk)?;
        }
        Ok(())
    }

    /// Notes a command that is no event.
    fn note_command(
        &self,
        layout: &Layout,
        command: &PanelCommand,
        desk: &mut Desk,
    ) -> Result<(), AllocError>
        ensures { OnOk result (Notes desk.old desk.new) }
    {
        let millis = self.millis;
        match command {
            PanelCommand::Event(_) => leave(desk),
            PanelCommand::CancelAll => {
                let line = format!(in self.alloc; "{millis} cancel all = accepted")?;
                note(desk, line.as_str())
            }
            PanelCommand::Disturb(disturbance) => {
                let asked = DisturbanceText {
                    layout,
                    disturbance: *disturbance,
                };
                let line = format!(in self.alloc; "{millis} {asked} = ok")?;
                note(desk, line.as_str())
            }
            PanelCommand::Stand(order) => {
                let asked = StandingOrderText {
                    layout,
                    order: *order,
                };
                let line = format!(in self.alloc; "{millis} {asked} = accepted")?;
                note(desk, line.as_str())
            }
        }
    }

    /// Notes events with their answers. Where all routes were cancelled, those that weren't set are left out.
    fn note_answers(
        &self,
        table: &Checked,
        events: &[Event],
        answers: &[Result<Answer, Refused>],
        cancels_all: bool,
        desk: &mut Desk,
    ) -> Result<(), AllocError>
        ensures { OnOk result (Notes desk.old desk.new) }
    {
        for place in 0..events.len().min(answers.len()) {
            self.note_wanted(table, &events[place], answers[place], cancels_all, desk)?;
        }
        Ok(())
    }

    /// Notes an event with its answer, unless all routes were cancelled and it is a cancel that was refused.
    fn note_wanted(
        &self,
        table: &Checked,
        event: &Event,
        answer: Result<Answer, Refused>,
        cancels_all: bool,
        desk: &mut Desk,
    ) -> Result<(), AllocError>
        ensures { OnOk result (Notes desk.old desk.new) }
    {
        if cancels_all && is_refused_cancel(event, answer) {
            return leave(desk);
        }
        self.note_answer(table, event, answer, desk)
    }

    /// Notes an event with its answer.
    fn note_answer(
        &self,
        table: &Checked,
        event: &Event,
        answer: Result<Answer, Refused>,
        desk: &mut Desk,
    ) -> Result<(), AllocError>
        ensures { OnOk result (Notes desk.old desk.new) }
    {
        let Some(line) = write_event(self.alloc, table, event)? else {
            return leave(desk);
        };
        let millis = self.millis;
        let layout = table.layout();
        let answer = AnswerText { layout, answer };
        let line = format!(in self.alloc; "{millis} {line} = {answer}")?;
        note(desk, line.as_str())
    }
}

/// Notes a line.
fn note(desk: &mut Desk, line: &str) -> Result<(), AllocError>
    ensures { OnOk result (Notes desk.old desk.new) }
{
    desk.note(line)
}

/// Notes nothing.
#[tactic(auto, using(crate::proofs::Turn::nothing_noted))]
fn leave(desk: &mut Desk) -> Result<(), AllocError>
    ensures { OnOk result (Notes desk.old desk.new) }
{
    desk.places();
    Ok(())
}

/// Whether a cancel was refused.
fn is_refused_cancel(event: &Event, answer: Result<Answer, Refused>) -> bool {
    match (event, answer) {
        (Event::Request(Command::Cancel(_)), Ok(Answer::Refused(_))) => true,
        _ => false,
    }
}

/// Whether one of the commands is to cancel all routes.
fn is_all_cancelled(commands: &[PanelCommand]) -> bool {
    for command in commands {
        if matches!(command, PanelCommand::CancelAll) {
            return true;
        }
    }
    false
}
