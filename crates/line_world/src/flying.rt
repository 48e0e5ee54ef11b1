//! The datagrams of a line that the network may still deliver.

ghost use Rattle.std.specs.Prelude.{◌≡◌, ◌+◌, ◌≤◌, ◌<◌, ◌++◌, drop, length, map, take, IfSome, IfNone};
ghost use Rattle.std.specs.Vec.{vec_len, vec_capacity};
ghost use Rattle.line_host.specs.Host.{emptied};
ghost use Rattle.line_world.specs.Events.{is_flying};
ghost use Rattle.line_world.specs.Happens.{age_after, just_sent, still_flying, without_oldest};

use line_host::LineHost;
use rasta_core::LIFETIME_MICROS;
use rasta_pdu::Datagram;
use std::marker::Model;

/// A datagram that was sent and isn't lost.
#[derive(Debug, Drop)]
pub struct Flying {
    pub(crate) datagram: Datagram,
    /// How long ago it was sent, in microseconds of true time.
    pub(crate) age: u64,
}

impl Model for Flying {
    ghost use Rattle.line_world.specs.State as spec;

    ghost Value = { spec.Flying };

    ghost view = { λ f. record { bytes = f.datagram.items; age = f.age } };
}

impl Flying {
    /// Its bytes.
    pub fn bytes(&self) -> &[u8]
        ensures { result.now ≡ self.now.bytes }
    {
        self.datagram.as_slice()
    }

    /// How long ago it was sent, in microseconds of true time.
    pub fn age(&self) -> u64
        ensures { result ≡ self.now.age }
    {
        self.age
    }

    /// It becomes this old.
    fn grow_to(&mut self, age: u64)
        ensures { self.new ≡ record self.old { age = age } }
    {
        self.age = age;
    }
}

/// What the last step of a process handed out is sent.
pub(crate) fn send_all(process: &mut LineHost, flying: &mut Vec<Flying>)
    requires { vec_len flying.old + length process.old.talk.outbox.datagrams ≤ vec_capacity flying.old }
    ensures flying { flying.new.items ≡ flying.old.items ++ map just_sent process.old.talk.outbox.datagrams }
    ensures process { process.new ≡ emptied process.old }
    ensures len { vec_len flying.new ≡ vec_len flying.old + length process.old.talk.outbox.datagrams }
    ensures capacity { vec_capacity flying.new ≡ vec_capacity flying.old }
{
    while let Some(datagram) = process.take_first() {
        flying.push_reserved(Flying { datagram, age: 0 });
    }
}

/// The place of the oldest datagram of these bytes.
fn oldest(flying: &[Flying], bytes: &[u8]) -> Option<usize>
    ensures found { IfSome result (λ place. (place < length flying.now) × (without_oldest bytes.now flying.now ≡ take place flying.now ++ drop (place + 1) flying.now)) }
    ensures none { IfNone result (without_oldest bytes.now flying.now ≡ flying.now) }
{
    for place in 0..flying.len() {
        if flying[place].bytes() == bytes {
            return Some(place);
        }
    }
    None
}

/// Whether a datagram of these bytes may still be delivered.
pub(crate) fn is_flying(flying: &[Flying], bytes: &[u8]) -> bool
    ensures { result ≡ is_flying bytes.now flying.now }
{
    flying.iter().any(|one| one.bytes() == bytes)
}

/// The network loses the oldest datagram of these bytes, if there is one.
pub(crate) fn lose(flying: &mut Vec<Flying>, bytes: &[u8])
    ensures flying { flying.new.items ≡ without_oldest bytes.now flying.old.items }
    ensures len { vec_len flying.new ≤ vec_len flying.old }
    ensures capacity { vec_capacity flying.new ≡ vec_capacity flying.old }
{
    if let Some(place) = oldest(flying, bytes) {
        flying.remove(place);
    }
}

/// How old a datagram is after so much time, if it may still be delivered then.
fn age_after(elapsed: u64, age: u64) -> Option<u64>
    ensures { result ≡ age_after elapsed age }
{
    let age = age.saturating_add(elapsed);
    if age <= LIFETIME_MICROS {
        Some(age)
    } else {
        None
    }
}

/// So much true time goes on: all become older, and those that are too old are gone.
pub(crate) fn grow_old(flying: &mut Vec<Flying>, elapsed: u64)
    ensures flying { flying.new.items ≡ still_flying elapsed flying.old.items }
    ensures len { vec_len flying.new ≤ vec_len flying.old }
    ensures capacity { vec_capacity flying.new ≡ vec_capacity flying.old }
{
    let mut place = 0;
    while place < flying.len() {
        match age_after(elapsed, flying[place].age) {
            Some(age) => {
                flying[place].grow_to(age);
                place += 1;
            }
            None => {
                flying.remove(place);
            }
        }
    }
}
