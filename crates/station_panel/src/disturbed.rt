//! A network that is disturbed.

ghost use Rattle.std.specs.Prelude.{◌≡◌, IfOk};
ghost use Rattle.station_panel.specs.DisturbedNetwork.{Released, comes_late, disturbance, flag_at, flags_from, heeded, is_cut_off, is_one_cut, is_sender_cut, is_turn, undisturbed};
ghost use Rattle.station_panel.specs.Inside.{FirstGoes, Keeps, Loses, is_first_due};

use crate::faults::Faults;
use panel_desk::{Layout, MICROS, NodeId, sender_of};
use station_drive::{Datagrams, NetFault, Received};
use std::alloc::{AllocError, Global};
use std::collections::VecDeque;

/// A datagram that comes late.
#[derive(Drop)]
struct Late {
    to: NodeId,
    bytes: Vec<u8>,
    /// When it goes on, in microseconds.
    due: u64,
}

/// A network of which some nodes are cut off, which loses one datagram of so many, and over which datagrams come late.
pub struct Disturbed<N> {
    net: N,
    alloc: Global,
    /// The identity of each node.
    ids: Vec<u32>,
    /// Of each node, whether it is cut off.
    cut: Vec<bool>,
    one_in: u64,
    /// How many datagrams were sent since one was lost.
    since: u64,
    /// By how many microseconds datagrams come late.
    delay: u64,
    /// The clock at the round, in microseconds.
    reading: u64,
    late: VecDeque<Late>,
}

// Written by hand, so that it is proved and compiled here alone.
impl<N: Drop> Drop for Disturbed<N> {
    fn drop(self) {
        let Self {
            net: _,
            alloc: _,
            ids: _,
            cut: _,
            one_in: _,
            since: _,
            delay: _,
            reading: _,
            late: _,
        } = self;
    }
}

impl<N: Drop> Disturbed<N> {
    /// A network between the nodes of a layout, that isn't disturbed yet.
    pub fn of(alloc: Global, net: N, layout: &Layout) -> Result<Disturbed<N>, AllocError>
        ensures { IfOk result (λ d. disturbance d ≡ undisturbed layout.now net) }
    {
        let ids = layout.identities(alloc)?;
        let cut = vec![in alloc; false; ids.len()]?;
        Ok(Disturbed {
            net,
            alloc,
            ids,
            cut,
            one_in: 0,
            since: 0,
            delay: 0,
            reading: 0,
            late: VecDeque::new(alloc),
        })
    }
}

impl<N> Disturbed<N> {
    /// From now on it is disturbed so.
    pub(crate) fn heed(&mut self, faults: &Faults, reading: u64)
        ensures { disturbance self.new ≡ heeded faults.now reading (disturbance self.old) }
    {
        set_flags(&mut self.cut, &faults.cut);
        self.one_in = faults.one_in;
        self.delay = faults.millis.saturating_mul(MICROS);
        self.reading = reading;
    }

    /// Whether bytes that go to a node are lost: this node is cut off, or the one that sent them, or their turn has come.
    fn loses(&mut self, to: NodeId, bytes: &[u8]) -> bool
        ensures lost { Loses (disturbance self.old) to bytes.now result (disturbance self.new) }
        ensures net { self.new.net ≡ self.old.net }
    {
        if self.is_cut_off(to, bytes) {
            return true;
        }
        if self.is_turn() {
            self.since = 0;
            return true;
        }
        self.since = self.since.saturating_add(1);
        false
    }

    /// Whether the node is cut off to which bytes go, or the one that sent them.
    fn is_cut_off(&self, to: NodeId, bytes: &[u8]) -> bool
        ensures { result ≡ is_cut_off (disturbance self.now) to bytes.now }
    {
        flag_at(&self.cut, to.0) || self.is_sender_cut(bytes)
    }

    /// Whether the turn of the next datagram to be lost has come.
    fn is_turn(&self) -> bool
        ensures { result ≡ is_turn (disturbance self.now) }
    {
        self.one_in != 0 && self.one_in <= self.since.saturating_add(1)
    }

    /// Whether the next datagram comes late.
    fn comes_late(&self) -> bool
        ensures { result ≡ comes_late (disturbance self.now) }
    {
        self.delay > 0 || !self.late.is_empty()
    }

    /// Whether the node is cut off that sent these bytes.
    fn is_sender_cut(&self, bytes: &[u8]) -> bool
        ensures { result ≡ is_sender_cut (disturbance self.now) bytes.now }
    {
        is_one_cut(&self.cut, sender_of(bytes), &self.ids)
    }

    /// Keeps bytes that come late, if memory is there for them, and answers whether it does.
    fn keeps(&mut self, to: NodeId, bytes: &[u8]) -> bool
        ensures kept { Keeps (disturbance self.old) to bytes.now result (disturbance self.new) }
        ensures net { self.new.net ≡ self.old.net }
    {
        if !self.comes_late() {
            return false;
        }
        let due = self.reading.saturating_add(self.delay);
        let Ok(bytes) = Vec::from_slice(self.alloc, bytes) else {
            return false;
        };
        self.late.push_back(Late { to, bytes, due }).is_ok()
    }

    /// Whether the first datagram that is kept goes on now.
    fn is_first_due(&self) -> bool
        ensures { result ≡ is_first_due (disturbance self.now).late self.now.reading }
    {
        match self.late.front() {
            Some(first) => first.due <= self.reading,
            None => false,
        }
    }
}

impl<N: Datagrams> Disturbed<N> {
    /// What comes late and is due goes on.
    pub(crate) fn release(&mut self)
        ensures { Released N.told N.carries (disturbance self.old) (disturbance self.new) }
    {
        for _ in 0..self.late.len() {
            if !self.is_first_due() {
                return;
            }
            self.send_first();
        }
    }

    /// The first that waits goes on.
    fn send_first(&mut self)
        ensures { FirstGoes N.told N.carries (disturbance self.old).late (disturbance self.old) (disturbance self.new) }
    {
        let Some(first) = self.late.pop_front() else {
            return;
        };
        let _ = self.net.send(first.to, &first.bytes);
    }
}

impl<N: Datagrams> Datagrams for Disturbed<N> {
    ghost use Rattle.station_panel.specs.DisturbedNetwork.{DisturbedView, Passes, disturbance};

    ghost Told = { DisturbedView N };

    ghost told = { disturbance };

    ghost carries = { Passes N.told N.carries };

    ghost failed = { λ disturbed. N.failed disturbed.net };

    fn send(&mut self, to: NodeId, bytes: &[u8]) -> Result<(), NetFault> {
        if self.loses(to, bytes) {
            return Ok(());
        }
        if self.keeps(to, bytes) {
            return Ok(());
        }
        self.net.send(to, bytes)
    }

    fn receive(&mut self, node: NodeId) -> Result<Option<Received>, NetFault> {
        self.net.receive(node)
    }

    fn faults(&self) -> u64 {
        self.net.faults()
    }
}

/// The flag at a place; none is set where there is none.
fn flag_at(flags: &[bool], place: usize) -> bool
    ensures { result ≡ flag_at flags.now place }
{
    match flags.get(place) {
        Some(flag) => *flag,
        None => false,
    }
}

/// Sets flags as they are wanted; none is set that isn't among the wanted ones.
fn set_flags(flags: &mut [bool], wanted: &[bool])
    ensures { flags.new ≡ flags_from wanted.now 0 flags.old }
{
    for place in 0..flags.len() {
        flags[place] = flag_at(wanted, place);
    }
}

/// Whether the node of an identity is cut off.
fn is_one_cut(cut: &[bool], sender: u32, ids: &[u32]) -> bool
    ensures { result ≡ is_one_cut cut.now sender ids.now 0 }
{
    for place in 0..ids.len() {
        if ids[place] == sender {
            return flag_at(cut, place);
        }
    }
    false
}
