//! A panel between its turns.

ghost use Rattle.std.specs.Prelude.{◌≡◌, ◌++◌, ◌-◌, ◌/◌, ◌≤◌, ℕ, List, Option, Some, IfOk, OnErr, OnOk, length};
ghost use Rattle.panel_connections.specs.Served.{Serves};
ghost use Rattle.panel_desk.specs.Answers.{Answered};
ghost use Rattle.panel_desk.specs.Boards.{Notes, shown_anew};
ghost use Rattle.station_drive.specs.Rounds.{run_after};
ghost use Rattle.station_panel.specs.DisturbedNetwork.{Released, disturbance, heeded};
ghost use Rattle.panel_desk.specs.node_lines.closings.declared.auxiliary.AuxiliaryCounts.{AuxiliaryCounts as Counts};
ghost use Rattle.station_panel.specs.Shown.{own_lines};
ghost use Rattle.station_panel.specs.Turns.{HasPartOfRound, HasRound, Wants, emptied, with_numbers};
ghost use Rattle.station_panel.specs.declared.ending.Ending.TheVariants as ends;

use crate::asked::{add_events, add_requests, disturb_by, routes_by_itself};
use crate::counted::{count_answers, count_auxiliaries, count_turn, told};
use crate::disturbed::Disturbed;
use crate::ending::{Ending, Limits};
use crate::faults::Faults;
use crate::log_lines::LogLines;
use crate::memory::Memory;
use crate::noting::Noting;
use crate::picture_shown::{OwnPicture, show_picture};
use panel_connections::{Connections, Listens};
use panel_desk::run_numbers::Numbers;
use panel_desk::{AuxiliaryCounts, Desk, Event, MICROS, PanelCommand, Pictured, StandingOrders};
use station_drive::{Course, Datagrams, DriveFault, Engine, Station};
use std::alloc::AllocError;
use std::io::Write;
use std::marker::Model;
use std::random::RandomSource;

/// A panel between its turns: its station, over a network that an operator disturbs, how far the run has come, what it does by itself, and
/// the desk.
pub(crate) struct Panel<'a, S: Station, N, W: Write> {
    pub(crate) engine: Engine<Noting<S>, Disturbed<N>, W>,
    pub(crate) course: Course<'a>,
    pub(crate) desk: Desk,
    pub(crate) faults: Faults,
    pub(crate) orders: StandingOrders,
    /// How many auxiliary commands were accepted.
    pub(crate) counts: AuxiliaryCounts,
    /// The commands of the turn.
    pub(crate) commands: Vec<PanelCommand>,
    pub(crate) memory: Memory,
    pub(crate) numbers: Numbers,
}

impl<'a, S: Station, N, W: Write> Model for Panel<'a, S, N, W> {
    ghost use Rattle.std.specs.Prelude.{◌≡◌, length};
    ghost use Rattle.station_panel.specs.DisturbedNetwork.{disturbance};
    ghost use Rattle.station_panel.specs.Turns.{Moment};

    ghost Value = { Moment S N };

    ghost view = { λ p. record { station = p.engine.station.station; net = disturbance p.engine.net; run = p.course; desk = p.desk; faults = p.faults; orders = p.orders; text = p.engine.text } };

    ghost invariant = { λ p. length p.course.drives ≡ length (S.site p.engine.station.station).points };
}

impl<S: Station, N: Datagrams, W: Write> Panel<'_, S, N, W> {
    /// The requests that have come are answered.
    pub(crate) fn answer<R: RandomSource, L: Listens>(
        &mut self,
        rt: &R,
        connections: &mut Connections<L::Stream>,
        listener: &mut L,
        reading: u64,
    )
        ensures served { Serves Answered self.old.desk self.new.desk }
        ensures kept { self.new ≡ record self.old { desk = self.new.desk } }
    {
        let millis = reading / MICROS;
        connections.serve(rt, self.engine.alloc, listener, &mut self.desk, millis);
    }

    /// A round at a reading of the clock, in which what was asked for happens.
    pub(crate) fn live(&mut self, reading: u64, events: &[Event]) -> Result<(), DriveFault>
        ensures done { OnOk result (HasRound S.Station N.Datagrams reading events.now self.old self.new) }
        ensures run { OnOk result (self.new.run ≡ run_after S.does (S.state self.new.station) self.old.run reading) }
        ensures stopped { OnErr result (HasPartOfRound S.Station N.Datagrams reading events.now self.old self.new) }
        ensures kept { self.new ≡ record self.new { desk = self.old.desk; faults = self.old.faults; orders = self.old.orders } }
    {
        let faults = &self.faults;
        begin_round(&mut self.engine, faults, reading);
        self.engine
            .round(&mut self.course, reading, events, &faults.jammed)
    }

    /// Why the panel ends after a turn at a reading of the clock, if it does.
    pub(crate) fn ending(&self, reading: u64, limits: Limits) -> Option<Ending>
        ensures { result ≡ Some ends.TimeIsOver → limits.for_ms ≤ (reading - self.now.run.first) / 1000 }
    {
        limits.ending(self.course.passed(reading), self.memory.bytes)
    }
}

impl<S: Station + Pictured, N, W: Write> Panel<'_, S, N, W> {
    /// The commands that wait are taken; what they disturb is disturbed, and what they ask of the panel itself is done. Hands out the events
    /// for which they ask, and behind them those for which the panel asks by itself.
    pub(crate) fn want(&mut self, reading: u64) -> Result<Vec<Event>, AllocError>
        ensures wanted { IfOk result (λ events. Wants S.Station S.Pictured reading self.old events.items self.new) }
        ensures failed { OnErr result (self.new ≡ record self.old { desk = emptied self.old.desk; faults = self.new.faults; orders = self.new.orders }) }
    {
        self.commands = self.desk.take();
        let routes = self.engine.station.table().layout().routes().len();
        let mut events = Vec::new(self.engine.alloc);
        add_events(&mut events, routes, &self.commands)?;
        disturb_by(&mut self.faults, &self.commands);
        self.orders.obey(&self.commands)?;
        let tried = routes_by_itself(
            self.engine.alloc,
            &self.engine.station,
            &mut self.orders,
            reading,
        )?;
        add_requests(&mut events, &tried)?;
        Ok(events)
    }

    /// What is seen after a round is shown, with what was counted, and what was asked for in it is noted in the log.
    pub(crate) fn show(
        &mut self,
        events: &[Event],
        reading: u64,
        limit: u64,
    ) -> Result<(), AllocError>
        ensures shown { OnOk result ((bytes : ℕ) × (numbers : List (Option ℕ)) × (counts : Counts) × Notes (shown_anew (S.site self.old.station) (S.lines self.old.station ++ own_lines self.old.faults self.old.orders counts bytes limit) (with_numbers numbers self.old.desk)) self.new.desk) }
        ensures kept { self.new ≡ record self.old { desk = self.new.desk } }
    {
        let engine = &self.engine;
        self.counts = count_auxiliaries(self.counts, events, &engine.station.answers);
        self.memory.count(&engine.station, &mut self.numbers);
        let own = OwnPicture {
            faults: &self.faults,
            orders: &self.orders,
            counts: self.counts,
            bytes: self.memory.bytes,
            limit,
        };
        let ready = show_picture(engine.alloc, &engine.station, &own, &mut self.desk)?;
        count_turn(&mut self.numbers, reading, ready, self.memory.bytes);
        count_answers(&mut self.numbers, &engine.station.answers);
        let numbers = told(engine.alloc, &self.numbers)?;
        self.desk.tell_numbers(numbers);
        let log = LogLines {
            alloc: engine.alloc,
            millis: self.course.passed(reading),
        };
        log.note_turn(&engine.station, &self.commands, events, &mut self.desk)
    }
}

impl<S: Station + Drop, N: Drop, W: Write> Panel<'_, S, N, W> {
    /// The record of the panel, which is let go.
    pub(crate) fn into_recorder(self) -> W
        ensures { W.contents result ≡ self.entry.text }
    {
        let Panel {
            engine,
            course: _,
            desk: _,
            faults: _,
            orders: _,
            counts: _,
            commands: _,
            memory: _,
            numbers: _,
        } = self;
        let (_, recorder) = engine.into_outside();
        recorder
    }
}

/// What is disturbed is disturbed so from now on, and what comes late and is due goes on. The station forgets what it answered.
fn begin_round<S: Station, N: Datagrams, W: Write>(
    engine: &mut Engine<Noting<S>, Disturbed<N>, W>,
    faults: &Faults,
    reading: u64,
)
    ensures net { Released N.told N.carries (heeded faults.now reading (disturbance engine.old.net)) (disturbance engine.new.net) }
    ensures station { engine.new.station.station ≡ engine.old.station.station }
    ensures text { engine.new.text ≡ engine.old.text }
{
    engine.net.heed(faults, reading);
    engine.net.release();
    engine.station.forget();
}
