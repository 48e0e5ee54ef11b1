//! The small station: its nodes, their equipment, and the network between them.

use crate::node_stories::any_node::Beginning;
use crate::node_stories::changes::Seen;
use crate::node_stories::desk::Others;
use crate::node_stories::gear::{RESTING, is_safe};
use crate::node_stories::place::Place;
use crate::node_stories::script::{Act, Row};
use crate::node_stories::station::{NAMES, Station};
use node_kinds::simulator_spec::NodeId;
use station_node::node_network::MemoryOutside;
use std::alloc::AllocError;
use std::mem;

/// What the clock of each node reads before the first round.
pub(crate) const BEGINS: u64 = 5000;

/// How many milliseconds two rounds of a story are apart.
pub(crate) const STEP: u64 = 40;

/// How a station is played.
#[derive(Clone, Copy)]
pub(crate) struct Played {
    /// What happens.
    pub(crate) script: &'static [Row],
    /// How many milliseconds two rounds are apart.
    pub(crate) step: u64,
    /// Whether each node has a socket of its own.
    pub(crate) is_over_sockets: bool,
    /// The node with which the story is played, where it is one of a node.
    pub(crate) chosen: usize,
    /// The node whose process is played elsewhere, if one is.
    pub(crate) guest: Option<usize>,
    /// Which call of the network fails, counted from 1; none at 0.
    pub(crate) failing: u64,
}

impl Played {
    /// Over memory, with rounds 40 ms apart. No call of the network fails.
    pub(crate) fn new(script: &'static [Row]) -> Played {
        Played {
            script,
            step: STEP,
            is_over_sockets: false,
            chosen: 0,
            guest: None,
            failing: 0,
        }
    }
}

/// The small station.
#[derive(Drop)]
pub(crate) struct Plant<'a> {
    station: Station<'a>,
    played: Played,
    places: Vec<Place<'a>>,
    pub(crate) seen: Seen,
    /// How many rounds were played.
    round: u64,
    /// How many processes were made.
    made: u32,
}

impl<'a> Plant<'a> {
    /// A station without nodes.
    pub(crate) fn new(station: Station<'a>, played: Played) -> Plant<'a> {
        Plant {
            station,
            played,
            places: Vec::new(station.alloc),
            seen: Seen::new(station.alloc),
            round: 0,
            made: 0,
        }
    }

    /// Each node begins, with equipment of its own.
    pub(crate) fn begin(&mut self) {
        for number in 0..NAMES.len() {
            let begins = self.beginning(number);
            let begun = Place::begun(self.station, begins, &mut self.seen);
            self.seen.expect(push(&mut self.places, begun));
        }
    }

    /// What the clocks read.
    fn now(&self) -> u64 {
        BEGINS.saturating_add(self.played.step.saturating_mul(self.round))
    }

    /// How the next process begins, at equipment that rests. Each numbers its PDUs from another number on.
    fn beginning(&mut self, number: usize) -> Beginning {
        self.made = self.made.wrapping_add(1);
        let runs = self.played.guest != Some(number);
        Beginning {
            number,
            runs,
            has_socket: runs && self.played.is_over_sockets,
            now: self.now(),
            step: self.played.step,
            first: self.made.wrapping_mul(0xfff_fff0),
            gear: RESTING,
        }
    }

    /// What the script has before this round happens.
    fn act(&mut self) {
        for (round, act) in self.played.script {
            if *round == self.round {
                self.perform(*act);
            }
        }
    }

    fn perform(&mut self, act: Act) {
        match act {
            Act::Say(line) => {
                if let Some(place) = self.places.first_mut() {
                    place.bring_line(line, &mut self.seen);
                }
            }
            Act::MakeAnew(number) => self.make_anew(number),
            Act::MakeChosenAnew => self.make_anew(self.played.chosen),
            Act::Silence(number) => {
                if let Some(place) = self.places.get_mut(number) {
                    place.gear.answers = false;
                }
            }
            Act::Stop(number, rounds) => {
                if let Some(place) = self.places.get_mut(number) {
                    place.stopped = rounds;
                    place.tells_late = true;
                }
            }
            Act::Flood(number, count) => {
                if let Some(place) = self.places.get_mut(number) {
                    place.flooded = count;
                    place.tells_late = count > 0;
                }
            }
        }
    }

    /// The process of a node ends, and a new one begins.
    fn make_anew(&mut self, number: usize) {
        let begins = self.beginning(number);
        if let Some(place) = self.places.get_mut(number) {
            place.make_anew(self.station, begins, &mut self.seen);
        }
    }

    /// A round of each node, and of its equipment.
    fn go_on(&mut self) {
        self.act();
        self.run();
        for from in 0..self.places.len() {
            self.carry_from(from);
        }
        self.round = self.round.saturating_add(1);
        self.equip();
        self.judge();
    }

    /// A round of each node.
    fn run(&mut self) {
        for place in &mut self.places {
            let alloc = self.station.alloc;
            self.played.failing = place.run(alloc, self.played.failing, &mut self.seen);
        }
    }

    /// What a node sent is brought to whom it is for.
    fn carry_from(&mut self, from: usize) {
        for _ in 0..u64::MAX {
            let Some(sender) = self.places.get_mut(from) else {
                return;
            };
            let Some((to, bytes)) = sender.memory.take_sent() else {
                return;
            };
            self.bring(NodeId(from), to, &bytes);
        }
    }

    /// A datagram comes to a node.
    fn bring(&mut self, from: NodeId, to: NodeId, bytes: &[u8]) {
        if let Some(receiver) = self.places.get_mut(to.0) {
            self.seen.expect(receiver.memory.bring(Some(from), bytes));
        }
    }

    /// The equipment of each node hears what its node wrote, and goes on.
    fn equip(&mut self) {
        let now = self.now();
        for place in &mut self.places {
            place.equip(self.station.alloc, now, &mut self.seen);
        }
    }

    /// It is noted where what the lamps show isn't safe.
    fn judge(&mut self) {
        let [_, s1, s3, s4, p1, ..] = self.places.as_slice() else {
            return;
        };
        if !is_safe(self.now(), [s1.gear, s3.gear, s4.gear], p1.gear) {
            self.seen.note("lamps", "UNSAFE");
        }
    }

    /// Each node begins, and has so many rounds.
    pub(crate) fn play(&mut self, rounds: u64) {
        self.begin();
        for _ in 0..rounds {
            self.go_on();
        }
    }

    /// The process that is played elsewhere gets what came to it, and what it wrote and sent is taken.
    pub(crate) fn exchange(&mut self, memory: &mut MemoryOutside) {
        let guest = self.played.guest.unwrap_or(NAMES.len());
        if let Some(place) = self.places.get_mut(guest) {
            mem::swap(&mut place.memory, memory);
        }
    }
}

impl<'a> Others for Plant<'a> {
    fn go_on_beside(&mut self, memory: &mut MemoryOutside) {
        self.exchange(memory);
        self.go_on();
        self.exchange(memory);
    }
}

/// Adds a value after others, if there is one.
fn push<T: Drop>(all: &mut Vec<T>, one: Option<T>) -> Result<(), AllocError> {
    let Some(one) = one else {
        return Err(AllocError);
    };
    all.push(one)?;
    Ok(())
}
