// An interlocking with its controllers, between which nothing is lost. Where a growth is refused or a clock has fallen a
// datagram or a step is missing, and so what is counted at the end tells it.

use crate::controllers::Controllers;
use crate::passes::{read, report, tick, write};
use ixl::{Command, Input as StationInput, Interlocking};
use ixl_state::{Checked, Datagram, Key, Millis, RouteId, SignalId, key_of};
use object_host::Input;
use rasta_pdu::Pdu;
use std::alloc::{AllocError, Global};

/// How long a round takes.
const ROUND: Millis = 100;

/// In so many rounds the hold ends, and each link is opened and initialised.
const ROUNDS_OF_HOLD: u32 = 75;

/// In so many rounds each signal is told to show proceed, and says that it does.
const ROUNDS_OF_SETTING: u32 = 10;

/// What is timed.
#[derive(Clone, Copy)]
pub enum Work {
    Tick,
    Report,
    Read,
    Write,
}

/// The nodes, which all have one clock, and what the interlocking has sent that isn't delivered yet.
#[derive(Drop)]
pub struct Station {
    interlocking: Interlocking,
    controllers: Controllers,
    now: Millis,
    sent: Vec<Datagram>,
}

/// The interlocking makes a step, if it may.
fn step(interlocking: &mut Interlocking, now: Millis, input: StationInput<'_>) {
    if interlocking.may_step(now) {
        let _ = interlocking.step(now, input);
    }
}

/// What the interlocking sent in its last step is added.
fn collect(interlocking: &mut Interlocking, sent: &mut Vec<Datagram>) {
    for _ in 0..interlocking.outbox().len() {
        if let Some(datagram) = interlocking.take_first() {
            let _ = sent.push(datagram);
        }
    }
}

impl Station {
    /// All nodes were just made.
    pub fn new(alloc: Global, table: Checked) -> Result<Station, AllocError> {
        let controllers = Controllers::new(alloc, &table)?;
        Ok(Station {
            interlocking: Interlocking::new(alloc, table, 0, 0)?,
            controllers,
            now: 0,
            sent: Vec::new(alloc),
        })
    }

    fn key(&self) -> Key {
        key_of(self.interlocking.table().checked().layout())
    }

    /// The interlocking makes a step, and what it sends is kept.
    fn step(&mut self, input: StationInput<'_>) {
        step(&mut self.interlocking, self.now, input);
        collect(&mut self.interlocking, &mut self.sent);
    }

    /// What the interlocking sent comes, and is answered; then each node ticks.
    fn round(&mut self, alloc: Global) {
        self.now = self.now.saturating_add(ROUND);
        let answers = self.answers(alloc);
        for datagram in &answers {
            self.step(StationInput::Datagram(datagram.as_slice()));
        }
        self.step(StationInput::Tick);
    }

    /// What the controllers send as that comes which the interlocking sent, and as each of them ticks.
    fn answers(&mut self, alloc: Global) -> Vec<Datagram> {
        let sent = std::mem::replace(&mut self.sent, Vec::new(alloc));
        let mut answers = Vec::new(alloc);
        for datagram in &sent {
            let input = Input::Datagram(datagram.as_slice());
            self.controllers.step(self.now, input, &mut answers);
        }
        self.controllers.step(self.now, Input::Tick, &mut answers);
        answers
    }

    fn rounds(&mut self, alloc: Global, count: u32) {
        for _ in 0..count {
            self.round(alloc);
        }
    }

    /// All links are opened, and the first routes of the table are set and come to show proceed.
    fn come_up(&mut self, alloc: Global, routes: usize) {
        self.rounds(alloc, ROUNDS_OF_HOLD);
        self.step(StationInput::Command(Command::Resume));
        for number in 0..routes {
            self.step(StationInput::Command(Command::Request(RouteId(number))));
        }
        self.rounds(alloc, ROUNDS_OF_SETTING);
    }

    /// From how many signals a route has authority.
    fn proceeding(&self) -> usize {
        let mut count: usize = 0;
        for place in 0..self.interlocking.table().checked().layout().signals().len() {
            if self.interlocking.authority(SignalId(place)).is_some() {
                count = count.saturating_add(1);
            }
        }
        count
    }

    /// The work is done so often.
    fn done(&mut self, reports: &mut Vec<Pdu>, work: Work, times: u32) -> u32 {
        let (key, now) = (self.key(), self.now);
        let ixl = &mut self.interlocking;
        if !ixl.may_step(now) {
            return 0;
        }
        match work {
            Work::Tick => tick(ixl, now, times),
            Work::Report => report(ixl, now, &key, reports, times),
            Work::Read => read(&key, reports, times),
            Work::Write => write(&key, reports, times),
        }
    }

    /// All comes up, and then the work is done so often. It answers how many signals show proceed, and how often what was
    /// done went as it has to.
    pub fn measured(
        &mut self,
        alloc: Global,
        routes: usize,
        work: Work,
        times: u32,
    ) -> (usize, u32) {
        self.come_up(alloc, routes);
        let proceeding = self.proceeding();
        let (key, now) = (self.key(), self.now);
        let mut reports = self.controllers.reports(alloc, now, &key);
        (proceeding, self.done(&mut reports, work, times))
    }
}
