//! A line as it runs.

ghost use Rattle.std.specs.Prelude.{◌≡◌, ◌+◌, ◌*◌, ◌≤◌, ◌&&◌, ◌⊎◌, IfOk, OnErr, OnOk, Some, true};
ghost use Rattle.line_host.specs.Host.{new_host};
ghost use Rattle.line_world.specs.Events.{are_within, is_at_work, is_flying, keeps_time, may_deliver, occasion_of};
ghost use Rattle.line_world.specs.Happens.{first_end, first_run, later, looked, made_anew, without_oldest};
ghost use Rattle.line_world.specs.Names.{parties};
ghost use Rattle.line_world.specs.Promise.{tells_clear};
ghost use Rattle.line_world.specs.State.{end_at};
ghost use Rattle.line_world.specs.declared.names.TheConstants.{VERSION};
ghost use Rattle.rasta_core.specs.time.TheConstants.{CLOCK_LIMIT};

use crate::end_run::EndRun;
use crate::ending::Ending;
use crate::flying;
use crate::flying::Flying;
use crate::names::{LineNames, VERSION};
use crate::time::{is_within, keeps_time};
use line_end::Kept;
use line_file::beginning;
use line_host::{Input, LineHost, Millis, Seen, Side, Start};
use rasta_pdu::is_intact;
use std::alloc::{AllocError, Global};
use std::marker::Model;

/// How many datagrams a look sends at most.
pub const MOST_SENT: usize = 44;

/// A whole line in one process: what it joins is handed in.
#[derive(Drop)]
pub struct LineWorld {
    names: LineNames,
    first: EndRun,
    second: EndRun,
    flying: Vec<Flying>,
    /// How many datagrams have their memory already.
    room: usize,
    alloc: Global,
}

impl Model for LineWorld {
    ghost use Rattle.std.specs.Prelude.{◌+◌, ◌≤◌};
    ghost use Rattle.std.specs.Vec.{vec_len, vec_capacity};
    ghost use Rattle.line_world.specs.State.{LineView};

    ghost Value = { LineView };

    ghost view = { λ w. record { names = w.names; run = record { first = w.first; second = w.second; flying = w.flying.items }; room = w.room } };

    ghost invariant = { λ w. vec_len w.flying + w.room ≤ vec_capacity w.flying };
}

/// A process of an end that begins from its file.
#[tactic(auto, unfolding(crate::proofs::Below::created))]
fn process(
    alloc: Global,
    names: &LineNames,
    side: Side,
    start: Start,
    kept: Kept,
) -> Result<LineHost, AllocError>
    ensures host { IfOk result (λ host. host ≡ new_host (parties side names.now) start.first_sequence_number start.now VERSION kept) }
    ensures clock { IfOk result (λ host. host.talk.link.clock ≡ start.now) }
{
    LineHost::new(alloc, names.parties(side), start, VERSION, kept)
}

/// An end of a line that begins.
fn first_end(alloc: Global, names: &LineNames, side: Side) -> Result<EndRun, AllocError>
    ensures { IfOk result (λ end. end ≡ first_end names.now side) }
{
    let start = Start {
        first_sequence_number: 0,
        now: 0,
    };
    let kept = beginning(side);
    let process = process(alloc, names, side, start, kept)?;
    Ok(EndRun::new(process, kept, 0))
}

impl LineWorld {
    /// A line that begins: its token is at the first end, and both locks lie at the left. Both clocks are 0.
    #[tactic(auto, unfolding(crate::specs::Happens::first_run))]
    pub fn new(alloc: Global, names: LineNames) -> Result<LineWorld, AllocError>
        ensures names { IfOk result (λ line. line.names ≡ names) }
        ensures run { IfOk result (λ line. line.run ≡ first_run names) }
    {
        let first = first_end(alloc, &names, Side::First)?;
        let second = first_end(alloc, &names, Side::Second)?;
        Ok(LineWorld {
            names,
            first,
            second,
            flying: Vec::new(alloc),
            room: 0,
            alloc,
        })
    }

    /// Who its ends are.
    pub fn names(&self) -> &LineNames
        ensures { result.now ≡ self.now.names }
    {
        &self.names
    }

    /// The end at a side.
    fn end_at(&self, side: Side) -> &EndRun
        ensures { result.now ≡ end_at side self.now.run }
    {
        match side {
            Side::First => &self.first,
            Side::Second => &self.second,
        }
    }

    /// Whether a process of the end at a side runs.
    pub fn is_at_work(&self, side: Side) -> bool
        ensures { result ≡ is_at_work (end_at side self.now.run) }
    {
        self.end_at(side).is_at_work()
    }

    /// What the file of the end at a side has: whether the line's token is there, and where the lock lies.
    pub fn kept(&self, side: Side) -> Kept
        ensures { result ≡ (end_at side self.now.run).file }
    {
        self.end_at(side).kept()
    }

    /// Whether the end at a side tells its station that the line is clear.
    pub fn tells_clear(&self, side: Side) -> bool
        ensures { result ≡ tells_clear (end_at side self.now.run) }
    {
        self.end_at(side).tells_clear()
    }

    /// The clock of the end at a side, in microseconds.
    pub fn clock(&self, side: Side) -> u64
        ensures { result ≡ (end_at side self.now.run).clock }
    {
        self.end_at(side).clock()
    }

    /// The datagrams that the network may still deliver, oldest first.
    pub fn flying(&self) -> &[Flying]
        ensures { result.now ≡ self.now.run.flying }
    {
        &self.flying
    }

    /// How many datagrams have their memory already.
    pub fn room(&self) -> usize
        ensures { result ≡ self.now.room }
    {
        self.room
    }

    /// Makes memory for at least so many datagrams; nothing else changes.
    pub fn reserve(&mut self, datagrams: usize) -> Result<(), AllocError>
        ensures room { OnOk result (datagrams ≤ self.new.room) }
        ensures more { self.old.room ≤ self.new.room }
        ensures same { self.new ≡ record self.old { room = self.new.room } }
    {
        if datagrams <= self.room {
            return Ok(());
        }
        self.flying.reserve(datagrams)?;
        self.room = datagrams;
        Ok(())
    }

    /// Whether the network may deliver these bytes: they were sent at most 2000 ms ago and aren't lost, or they are damaged.
    pub fn may_deliver(&self, bytes: &[u8]) -> bool
        ensures { result ≡ may_deliver self.now.names bytes.now self.now.run }
    {
        flying::is_flying(&self.flying, bytes) || !is_intact(&self.names.key, bytes)
    }

    /// Whether the network may lose a datagram of these bytes: it has one.
    pub fn is_flying(&self, bytes: &[u8]) -> bool
        ensures { result ≡ is_flying bytes.now self.now.run.flying }
    {
        flying::is_flying(&self.flying, bytes)
    }

    /// Whether each clock that goes on so keeps within 1 in 1000 of true time.
    pub fn keeps_time(&self, elapsed: u64, of_first: u64, of_second: u64) -> bool
        ensures { result ≡ (keeps_time elapsed of_first && keeps_time elapsed of_second) }
    {
        keeps_time(elapsed, of_first) && keeps_time(elapsed, of_second)
    }

    /// Whether no clock that goes on so passes its limit.
    pub fn is_within(&self, of_first: u64, of_second: u64) -> bool
        ensures { result ≡ are_within of_first of_second self.now.run }
    {
        is_within(self.first.clock(), of_first) && is_within(self.second.clock(), of_second)
    }

    /// The end at a side looks: it is called for this, sees this of its station, and its look ends so.
    #[tactic(auto, unfolding(crate::specs::Happens::looked))]
    pub fn look(&mut self, side: Side, input: &Input, seen: &Seen, ending: Ending)
        requires { 44 ≤ self.old.room }
        ensures run { self.new.run ≡ looked side (occasion_of input.now) seen.now ending self.old.run }
        ensures names { self.new.names ≡ self.old.names }
        // The lock moves only where it is driven.
        ensures lock { ((end_at side self.new.run).file.lock ≡ (end_at side self.old.run).file.lock) ⊎ (seen.now.drive ≡ Some (end_at side self.new.run).file.lock) }
        ensures room { self.old.room ≤ self.new.room + 44 }
    {
        match side {
            Side::First => self.first.look(input, seen, ending, &mut self.flying),
            Side::Second => self.second.look(input, seen, ending, &mut self.flying),
        }
        self.room -= MOST_SENT;
    }

    /// True time goes on, and the clock of each end, in microseconds.
    #[tactic(auto, unfolding(crate::specs::Happens::later))]
    pub fn pass(&mut self, elapsed: u64, of_first: u64, of_second: u64)
        requires { are_within of_first of_second self.old.run ≡ true }
        ensures { self.new ≡ record self.old { run = later elapsed of_first of_second self.old.run } }
    {
        self.first.pass(of_first);
        self.second.pass(of_second);
        flying::grow_old(&mut self.flying, elapsed);
    }

    /// The network loses the oldest datagram of these bytes.
    pub fn lose(&mut self, bytes: &[u8])
        ensures { self.new ≡ record self.old { run = record self.old.run { flying = without_oldest bytes.now self.old.run.flying } } }
    {
        flying::lose(&mut self.flying, bytes);
    }

    /// The end at a side is made anew from its file, with a clock in milliseconds and the number of its first PDU.
    #[tactic(auto, unfolding(crate::specs::Happens::made_anew))]
    pub fn restart(&mut self, side: Side, clock: Millis, first: u32) -> Result<(), AllocError>
        requires { clock * 1000 ≤ CLOCK_LIMIT }
        ensures run { OnOk result (self.new ≡ record self.old { run = made_anew self.old.names side clock first self.old.run }) }
        ensures same { OnErr result (self.new ≡ self.old) }
    {
        let start = Start {
            first_sequence_number: first,
            now: clock,
        };
        let kept = self.kept(side);
        let process = process(self.alloc, &self.names, side, start, kept)?;
        let end = EndRun::new(process, kept, clock);
        match side {
            Side::First => self.first = end,
            Side::Second => self.second = end,
        }
        Ok(())
    }
}
