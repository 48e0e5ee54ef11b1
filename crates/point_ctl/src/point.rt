//! The controller of a point.

ghost use Rattle.std.specs.Prelude.{◌≡◌, ℕ};
ghost use Rattle.point_ctl.specs.Drive.{commanded_by, drive_of, driven_by, drives, made, move_taken, own_report, position_report};
ghost use Rattle.point_ctl.specs.Controlled.{point_behaviour};

use crate::drive::Drive;
use crate::parameters::DRIVE_LIMIT;
use crate::progress::{Progress, is_at};
use object_host::{Controller, Report, Sense};
use rasta_core::Millis;
use sci_telegram::{Message, PointMessage, Position, Protocol, Side, Telegram};
use std::marker::Model;

/// A point and its drive. Contracts see it as a `PointState`: where it was sensed, how far its last move has
/// come, and the moment from which it isn't driven.
///
/// A move to the side at which the point lies is answered at once; any other begins the drive, which ends where
/// the commanded position is sensed, after 10000 ms, or with the link. Each move that was taken has one final
/// report: the position, as it is sensed when the report is sent, or a timeout.
#[derive(Clone, Debug, Drop, PartialEq, Eq)]
pub struct Point {
    sensed: Position,
    progress: Progress,
    until: Millis,
}

impl Model for Point {
    ghost use Rattle.point_ctl.specs.Drive.{PointState};

    ghost Value = { PointState };

    ghost view = { λ p. record { sensed = p.sensed; progress = p.progress; until = p.until } };

    ghost inverse = { λ p. record { sensed = p.sensed; progress = p.progress; until = p.until } };
}

/// The side that a telegram commands, if it is a move.
fn commanded_by(telegram: &Telegram) -> Option<Side>
    ensures { result ≡ commanded_by telegram.now.message }
{
    match telegram.message {
        Message::Point(PointMessage::MovePoint(side)) => Some(side),
        _ => None,
    }
}

/// A report of the controller itself.
fn own_report(message: PointMessage) -> Report
    ensures { result ≡ own_report (Message.Point message) }
{
    Report {
        section: None,
        message: Message::Point(message),
    }
}

impl Point {
    /// A point that lies where it is sensed now, and isn't driven.
    pub fn new(sensed: Position) -> Point
        ensures { result ≡ made sensed }
    {
        Point {
            sensed,
            progress: Progress::Answered,
            until: 0,
        }
    }

    /// The side to which the point is driven at a reading of its own clock, in ms. It asks for no call in
    /// between: the drive ends as soon as the clock reaches its limit, or the moment last kept.
    pub fn drives(&self, now: Millis) -> Option<Side>
        ensures { result ≡ drives now self.now }
    {
        let Progress::Driving { side, since } = self.progress else {
            return None;
        };
        let is_in_time = now < since.saturating_add(DRIVE_LIMIT) && now < self.until;
        is_in_time.then_some(side)
    }

    /// The drive of the move in progress, with the moment at which it ends if nothing ends it before. At each reading of its
    /// own clock the point is driven exactly as this says, with no call in between.
    pub fn drive(&self) -> Option<Drive>
        ensures drive { result ≡ drive_of self.now }
        ensures drives { (now : ℕ) → drives now self.now ≡ driven_by result now }
    {
        let Progress::Driving { side, since } = self.progress else {
            return None;
        };
        let until = since.saturating_add(DRIVE_LIMIT).min(self.until);
        Some(Drive { side, until })
    }

    /// What the point tells of where it lies.
    fn position_report(&self) -> Report
        ensures { result ≡ position_report self.now }
    {
        own_report(PointMessage::PointPosition(self.sensed))
    }

    /// The side to which a telegram moves the point: the last move has to be answered.
    fn move_taken(&self, telegram: &Telegram) -> Option<Side>
        ensures { result ≡ move_taken telegram.now self.now }
    {
        if self.progress.is_answered() {
            commanded_by(telegram)
        } else {
            None
        }
    }
}

impl Controller for Point {
    ghost behaviour = { point_behaviour };

    fn protocol(&self) -> Protocol {
        Protocol::Point
    }

    fn take(&mut self, now: Millis, telegram: &Telegram) -> bool {
        match self.move_taken(telegram) {
            Some(side) if is_at(side, self.sensed) => self.progress = Progress::Arrived,
            Some(side) => self.progress = Progress::Driving { side, since: now },
            None => return false,
        }
        true
    }

    fn tick(&mut self, now: Millis) {
        self.progress = self.progress.limited(now);
    }

    fn sense(&mut self, now: Millis, sense: Sense) {
        if let Sense::Position(position) = sense {
            self.progress = self.progress.limited(now).reached(position);
            self.sensed = position;
        }
    }

    fn keep(&mut self, until: Millis) {
        self.until = until;
    }

    fn owed(&self) -> Option<Report> {
        match self.progress {
            Progress::Arrived => Some(self.position_report()),
            Progress::TimedOut => Some(own_report(PointMessage::Timeout)),
            Progress::Answered | Progress::Driving { .. } => None,
        }
    }

    fn paid(&mut self) {
        self.progress = self.progress.answered();
    }

    fn status(&self, place: usize) -> Option<Report> {
        (place == 0).then(|| self.position_report())
    }

    fn lost(&mut self) {
        self.progress = Progress::Answered;
    }

    fn restrictive(&self, now: Millis) -> bool {
        self.drives(now).is_none()
    }

    ghost use Rattle.point_ctl.specs.inside.Law.{point_is_lawful};

    ghost lawful = { point_is_lawful };
}
