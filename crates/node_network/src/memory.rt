//! What a node's process has outside, over memory.

ghost use Rattle.std.specs.Prelude.{◌≡◌, ◌+◌, ◌-◌, ◌≤◌, [], ◌∷◌, ◌++◌, ℕ, List, None, OnOk, Option, Some, map, min, string_bytes, true};
ghost use Rattle.std.specs.Bool.{Decides};
ghost use Rattle.std.specs.Option.{option_to_list};
ghost use Rattle.node_drive.specs.Calls.{Empty, Failed, datagram_heard};
ghost use Rattle.node_drive.specs.simulator_event.layout.declared.ids.NodeId.{NodeId as Node};
ghost use Rattle.node_network.specs.Log.{told_calls};

use crate::log::{Log, OutsideCall};
use crate::network_socket::{MOST_THROWN_AWAY, arrived};
use node_drive::{
    BrokenOff, Fault, LONGEST_DATAGRAM, Network, NextDatagram, NextLine, NodeId, Origin, Outside,
    ThrownAway, ToKeep,
};
use std::alloc::{AllocError, Global};
use std::collections::VecDeque;

/// What a node's process has outside, over memory: a clock that goes on by the same step in each round, what was brought, and what was
/// written and sent. One call of its network may fail.
pub struct MemoryOutside {
    alloc: Global,
    log: Log,
    /// What time it is.
    time: u64,
    /// What was read last.
    latest: u64,
    step: u64,
    /// Whether an operator began to listen since the last question.
    began: bool,
    lines: VecDeque<String>,
    /// Whether no line comes after those.
    closed: bool,
    datagrams: VecDeque<(Option<NodeId>, Vec<u8>)>,
    written: VecDeque<String>,
    sent: VecDeque<(NodeId, Vec<u8>)>,
    /// Which of the next calls of its network fails, counted from 1; none at 0.
    failing: u64,
    /// Whether what is to be kept is kept.
    keeps: bool,
}

// Written by hand, so that it is proved and compiled here alone.
impl Drop for MemoryOutside {
    fn drop(self) {
        let Self {
            alloc: _,
            log: _,
            time: _,
            latest: _,
            step: _,
            began: _,
            lines: _,
            closed: _,
            datagrams: _,
            written: _,
            sent: _,
            failing: _,
            keeps: _,
        } = self;
    }
}

impl MemoryOutside {
    /// A clock of this first reading, and nothing else. No call of its network fails, and what is to be kept is kept.
    pub fn new(alloc: Global, first: u64, step: u64) -> MemoryOutside
        ensures told { told_calls result.log.tells result.log.calls.items ≡ Some [] }
        ensures time { result.time ≡ first }
        ensures latest { result.latest ≡ first }
    {
        MemoryOutside {
            alloc,
            log: Log {
                calls: Vec::new(alloc),
                tells: true,
            },
            time: first,
            latest: first,
            step,
            began: false,
            lines: VecDeque::new(alloc),
            closed: false,
            datagrams: VecDeque::new(alloc),
            written: VecDeque::new(alloc),
            sent: VecDeque::new(alloc),
            failing: 0,
            keeps: true,
        }
    }

    /// Forgets what was called, and keeps nothing of it from now on, so that a long run takes no more memory than a short one.
    pub fn forget(&mut self)
        ensures log { told_calls self.new.log.tells self.new.log.calls.items ≡ None }
        ensures latest { self.new.latest ≡ self.old.latest }
    {
        self.log.tells = false;
        self.log.calls.clear();
    }

    /// Of the calls from now on that send or ask for a datagram, the one of this number fails, counted from 1; none at 0. It answers
    /// which was to fail before.
    pub fn fail_after(&mut self, calls: u64) -> u64
        ensures before { result ≡ self.old.failing }
        ensures failing { self.new ≡ record self.old { failing = calls } }
    {
        let before = self.failing;
        self.failing = calls;
        before
    }

    /// From now on what is to be kept is kept, or it isn't.
    pub fn put_keeping(&mut self, keeps: bool)
        ensures { self.new ≡ record self.old { keeps = keeps } }
    {
        self.keeps = keeps;
    }

    /// What was called so far, oldest first, as far as it was kept.
    pub fn calls(&self) -> &[OutsideCall]
        ensures { result.now ≡ self.now.log.calls.items }
    {
        &self.log.calls
    }

    /// Time passes.
    pub fn pass(&mut self, millis: u64)
        ensures time { self.new.time ≡ min (self.old.time + millis) 18446744073709551615 }
        ensures log { self.new.log ≡ self.old.log }
        ensures latest { self.new.latest ≡ self.old.latest }
    {
        self.time = self.time.saturating_add(millis);
    }

    /// An operator begins to listen.
    pub fn listen(&mut self)
        ensures { self.new ≡ record self.old { began = true } }
    {
        self.began = true;
    }

    /// A line comes.
    pub fn bring_line(&mut self, text: &str) -> Result<(), AllocError>
        ensures lines { OnOk result (map string_bytes self.new.lines.items ≡ map string_bytes self.old.lines.items ++ text.now ∷ []) }
        ensures log { self.new.log ≡ self.old.log }
        ensures latest { self.new.latest ≡ self.old.latest }
    {
        keep_line(self.alloc, &mut self.lines, text)
    }

    /// No more lines come.
    pub fn close(&mut self)
        ensures { self.new ≡ record self.old { closed = true } }
    {
        self.closed = true;
    }

    /// A datagram comes from the address of a node, or from that of none, over the only network.
    pub fn bring(&mut self, from: Option<NodeId>, bytes: &[u8]) -> Result<(), AllocError>
        ensures datagrams { OnOk result (map {B = Option Node × List ℕ} (λ d. (d.0, d.1.items)) self.new.datagrams.items ≡ map {B = Option Node × List ℕ} (λ d. (d.0, d.1.items)) self.old.datagrams.items ++ (from, bytes.now) ∷ []) }
        ensures log { self.new.log ≡ self.old.log }
        ensures latest { self.new.latest ≡ self.old.latest }
    {
        keep_datagram(self.alloc, &mut self.datagrams, from, bytes)
    }

    /// Takes the oldest line that was written, as far as it was kept.
    pub fn take_written(&mut self) -> Option<String>
        ensures written { self.old.written.items ≡ option_to_list result ++ self.new.written.items }
        ensures log { self.new.log ≡ self.old.log }
        ensures latest { self.new.latest ≡ self.old.latest }
    {
        self.written.pop_front()
    }

    /// Takes the oldest datagram that was sent, as far as it was kept, with the node to which it goes.
    pub fn take_sent(&mut self) -> Option<(NodeId, Vec<u8>)>
        ensures sent { self.old.sent.items ≡ option_to_list result ++ self.new.sent.items }
        ensures log { self.new.log ≡ self.old.log }
        ensures latest { self.new.latest ≡ self.old.latest }
    {
        self.sent.pop_front()
    }
}

impl Outside for MemoryOutside {
    ghost told = { λ outside. record { calls = told_calls outside.log.tells outside.log.calls.items; latest = outside.latest } };

    fn rest(&mut self) {
        self.time = self.time.saturating_add(self.step);
        self.log.add(OutsideCall::Rested);
    }

    fn read_clock(&mut self) -> u64 {
        self.latest = self.latest.max(self.time);
        self.log.add(OutsideCall::Read(self.latest));
        self.latest
    }

    fn has_listener(&mut self) -> bool {
        let began = self.began;
        self.began = false;
        self.log.add(OutsideCall::AskedListener(began));
        began
    }

    fn next_line(&mut self, alloc: Global) -> Result<NextLine, AllocError> {
        let line = match self.lines.pop_front() {
            Some(text) => NextLine::Text(text),
            None if self.closed => NextLine::Closed,
            None => NextLine::Nothing,
        };
        match &line {
            NextLine::Text(text) => match String::from_str(alloc, text.as_str()) {
                Ok(text) => self.log.add(OutsideCall::HeardLine(text)),
                Err(_) => self.log.tells = false,
            },
            NextLine::Nothing => self.log.add(OutsideCall::HeardNoLine),
            NextLine::Closed => self.log.add(OutsideCall::HeardEnd),
        }
        Ok(line)
    }

    fn next_datagram(&mut self) -> NextDatagram {
        let next = take_datagram(&mut self.failing, &mut self.datagrams);
        match &next {
            NextDatagram::Came(arrived) => match Vec::from_slice(self.alloc, &arrived.bytes) {
                Ok(bytes) => self
                    .log
                    .add(OutsideCall::HeardDatagram(arrived.origin, bytes)),
                Err(_) => self.log.tells = false,
            },
            NextDatagram::Empty => self.log.add(OutsideCall::HeardNoDatagram),
            NextDatagram::Failed => self.log.add(OutsideCall::FailedToReceive),
        }
        next
    }

    fn throw_away(&mut self) -> ThrownAway {
        let thrown = throw_away(&mut self.datagrams);
        self.log
            .add(OutsideCall::ThrewAway(thrown.count, thrown.found_empty));
        thrown
    }

    fn write_line(&mut self, text: &str) -> Result<(), BrokenOff> {
        let whole = keep_line(self.alloc, &mut self.written, text).is_ok();
        match String::from_str(self.alloc, text) {
            Ok(text) if whole => self.log.add(OutsideCall::Wrote(text)),
            Ok(text) => self.log.add(OutsideCall::BrokeOff(text)),
            Err(_) => self.log.tells = false,
        }
        if whole { Ok(()) } else { Err(BrokenOff) }
    }

    fn send(&mut self, to: NodeId, bytes: &[u8]) {
        match Vec::from_slice(self.alloc, bytes) {
            Ok(bytes) => self.log.add(OutsideCall::Sent(to, bytes)),
            Err(_) => self.log.tells = false,
        }
        if !fails(&mut self.failing) {
            // Where no memory is left it is lost.
            let _ = keep_datagram(self.alloc, &mut self.sent, to, bytes);
        }
    }

    fn complain(&mut self, line: u64, fault: Fault) {
        self.log.add(OutsideCall::Complained(line, fault));
    }

    fn keep(&mut self, all: ToKeep) -> bool {
        self.log.add(OutsideCall::Kept(all, self.keeps));
        self.keeps
    }
}

/// Keeps a line after others.
fn keep_line(alloc: Global, lines: &mut VecDeque<String>, text: &str) -> Result<(), AllocError>
    ensures { OnOk result (map string_bytes lines.new.items ≡ map string_bytes lines.old.items ++ text.now ∷ []) }
{
    lines.push_back(String::from_str(alloc, text)?)?;
    Ok(())
}

/// Keeps a datagram after others, with the node that sent it or to which it goes.
fn keep_datagram<N: Copy>(
    alloc: Global,
    datagrams: &mut VecDeque<(N, Vec<u8>)>,
    node: N,
    bytes: &[u8],
) -> Result<(), AllocError>
    ensures { OnOk result (map {B = N × List ℕ} (λ d. (d.0, d.1.items)) datagrams.new.items ≡ map {B = N × List ℕ} (λ d. (d.0, d.1.items)) datagrams.old.items ++ (node, bytes.now) ∷ []) }
{
    datagrams.push_back((node, Vec::from_slice(alloc, bytes)?))?;
    Ok(())
}

/// A call of the network is made, where one of the next calls fails. It tells whether this is the one.
fn fails(failing: &mut u64) -> bool
    ensures failing { failing.new ≡ failing.old - 1 }
    ensures fails { Decides result (failing.old ≡ 1) }
{
    let fails = *failing == 1;
    *failing = failing.saturating_sub(1);
    fails
}

/// Takes the oldest datagram, if one waits and the call doesn't fail. One that is too long is cut.
fn take_datagram(
    failing: &mut u64,
    datagrams: &mut VecDeque<(Option<NodeId>, Vec<u8>)>,
) -> NextDatagram
    ensures failed { failing.old ≡ 1 → datagram_heard result ≡ Failed }
    ensures empty { datagrams.old.items ≡ [] → failing.old ≡ 0 → datagram_heard result ≡ Empty }
{
    if fails(failing) {
        return NextDatagram::Failed;
    }
    let Some((from, bytes)) = datagrams.pop_front() else {
        return NextDatagram::Empty;
    };
    let (front, _) = bytes.split_at(bytes.len().min(LONGEST_DATAGRAM));
    let over = Network::Alone;
    arrived(Origin { from, over }, front)
}

/// Throws away datagrams that wait, the oldest first, as a socket does.
fn throw_away(datagrams: &mut VecDeque<(Option<NodeId>, Vec<u8>)>) -> ThrownAway
    ensures { result.count ≤ 4096 }
{
    for count in 0..MOST_THROWN_AWAY {
        let Some(one) = datagrams.pop_front() else {
            return ThrownAway {
                count,
                found_empty: true,
            };
        };
        drop(one);
    }
    ThrownAway {
        count: MOST_THROWN_AWAY,
        found_empty: false,
    }
}
