//! Signals, as C calls them.

ghost use Rattle.std.specs.Prelude.{◌≡◌, ◌≢◌, ◌≤◌, ◌<◌, ◌⊎◌, ◌++◌, ℕ, List, None, Some, drop, false, true, length};
ghost use Rattle.rasta_core.specs.Clock.{state_at};
ghost use Rattle.sci_telegram.specs.Names.{IsName};
ghost use Rattle.embedded_host.specs.Calls.{AsksOrder, Done, FindsEmpty, Hears, Ticks, after_call};
ghost use Rattle.embedded_host.specs.Embedded.{EmbeddedState, leaving};
ghost use Rattle.signal_ctl.specs.Lamp.{new_lamp};
ghost use Rattle.signal_ctl.specs.Signal.{SignalState, signal_behaviour};
ghost use Rattle.controllers_c.specs.Answers.{after_next, answer_in, answer_to_next_in, answer_where_there};
ghost use Rattle.controllers_c.specs.Kinds.{changed_signal, held_after, held_signal, signal_in};
ghost use Rattle.controllers_c.specs.Links.{link_number};
ghost use Rattle.controllers_c.specs.Owned.{is_started};
ghost use Rattle.controllers_c.specs.Setups.{set_up};
ghost use Rattle.controllers_c.specs.Signals.{lamp_of};
ghost use Rattle.controllers_c.specs.declared.held.Kind.TheVariants.{Signal as SignalKind};

use crate::answers::{MEMORY, NAME, NOT_STARTED, OK, ROOM, STARTED, number_of};
use crate::datagram::next;
use crate::handle::Handle;
use crate::held::{Held, Kind};
use crate::lamp::{LampOrder, lamp_of};
use crate::link::link_number;
use crate::room::is_too_small;
use crate::setup::{Setup, parties_of};
use embedded_host::Embedded;
use rasta_core::Start;
use signal_ctl::Signal;
use std::alloc::Global;

impl Held {
    fn signal_hear(&mut self, now: u64, bytes: &[u8]) -> u32
        ensures answer { result ≡ answer_in (Hears now bytes.now) (signal_in self.old.kind) }
        ensures does { self.new.kind ≡ changed_signal (after_call signal_behaviour (Hears now bytes.now)) self.old.kind }
    {
        match &mut self.kind {
            Kind::Signal(it) => number_of(it.hear(now, bytes)),
            _ => NOT_STARTED,
        }
    }

    fn signal_tick(&mut self, now: u64) -> u32
        ensures answer { result ≡ answer_in (Ticks now) (signal_in self.old.kind) }
        ensures does { self.new.kind ≡ changed_signal (after_call signal_behaviour (Ticks now)) self.old.kind }
    {
        match &mut self.kind {
            Kind::Signal(it) => number_of(it.tick(now)),
            _ => NOT_STARTED,
        }
    }

    fn signal_empty(&mut self, before: u64) -> u32
        ensures answer { result ≡ answer_in (FindsEmpty before) (signal_in self.old.kind) }
        ensures does { self.new.kind ≡ changed_signal (after_call signal_behaviour (FindsEmpty before)) self.old.kind }
    {
        match &mut self.kind {
            Kind::Signal(it) => number_of(it.empty(before)),
            _ => NOT_STARTED,
        }
    }

    fn signal_order(&mut self, now: u64, lamp: &mut LampOrder) -> u32
        ensures answer { result ≡ answer_in (AsksOrder now) (signal_in self.old.kind) }
        ensures does { self.new.kind ≡ changed_signal (after_call signal_behaviour (AsksOrder now)) self.old.kind }
        ensures lamp { result ≡ 0 → (it : EmbeddedState SignalState) → signal_in self.old.kind ≡ Some it → lamp.new ≡ lamp_of it.hosted.host.object now }
        ensures same { result ≢ 0 → lamp.new ≡ lamp.old }
    {
        match &mut self.kind {
            Kind::Signal(it) => match it.ask(now) {
                Ok(()) => {
                    *lamp = lamp_of(it.object(), now);
                    OK
                }
                Err(refusal) => number_of(Err(refusal)),
            },
            _ => NOT_STARTED,
        }
    }

    fn signal_done(&mut self) -> u32
        ensures answer { result ≡ answer_in Done (signal_in self.old.kind) }
        ensures does { self.new.kind ≡ changed_signal (after_call signal_behaviour Done) self.old.kind }
    {
        match &mut self.kind {
            Kind::Signal(it) => {
                it.done();
                OK
            }
            _ => NOT_STARTED,
        }
    }

    fn signal_next(&mut self, now: u64, out: &mut [u8], size: &mut usize) -> u32
        ensures answer { result ≡ answer_to_next_in (length out.old) now (signal_in self.old.kind) }
        ensures does { self.new.kind ≡ changed_signal (after_next signal_behaviour (length out.old) now) self.old.kind }
        ensures given { result ≡ 0 → (it : EmbeddedState SignalState) (datagram : List ℕ) → signal_in self.old.kind ≡ Some it → leaving now it ≡ Some datagram → (size.new ≡ length datagram) × (out.new ≡ datagram ++ drop (length datagram) out.old) }
        ensures none { result ≡ 0 → (it : EmbeddedState SignalState) → signal_in self.old.kind ≡ Some it → leaving now it ≡ None → (size.new ≡ 0) × (out.new ≡ out.old) }
        ensures same { result ≢ 0 → (size.new ≡ size.old) × (out.new ≡ out.old) }
    {
        match &mut self.kind {
            Kind::Signal(it) => next(it, now, out, size),
            _ => NOT_STARTED,
        }
    }

    fn signal_link(&mut self, now: u64, link: &mut u32) -> u32
        ensures answer { result ≡ answer_where_there (signal_in self.old.kind) }
        ensures kind { self.new.kind ≡ self.old.kind }
        ensures link { result ≡ 0 → (it : EmbeddedState SignalState) → signal_in self.old.kind ≡ Some it → link.new ≡ link_number (state_at now it.hosted.host.link) }
        ensures same { result ≢ 0 → link.new ≡ link.old }
    {
        match &mut self.kind {
            Kind::Signal(it) => {
                *link = link_number(it.link(now));
                OK
            }
            _ => NOT_STARTED,
        }
    }
}

/// Starts a controller in the room of a handle, of which there are so many bytes.
#[unsafe(no_mangle)]
pub extern "C" fn zendurai_signal_start(
    alloc: Global,
    handle: &mut Handle,
    room: usize,
    setup: &Setup,
    own_name: &[u8],
    peer_name: &[u8],
    now: u64,
) -> u32
    ensures started { is_started handle.old.held ≡ true → result ≡ 2 }
    ensures room { is_started handle.old.held ≡ false → room < 1024 → result ≡ 3 }
    ensures name { is_started handle.old.held ≡ false → 1024 ≤ room → ((IsName own_name.now × IsName peer_name.now) → ⊥) → result ≡ 4 }
    ensures accepted { is_started handle.old.held ≡ false → 1024 ≤ room → IsName own_name.now → IsName peer_name.now → (result ≡ 0) ⊎ (result ≡ 5) }
    ensures does { result ≡ 0 → handle.new.held ≡ Some (record { kind = SignalKind (set_up signal_behaviour setup.now own_name.now peer_name.now now (record { lamp = new_lamp; owes = false })) }) }
    ensures same { result ≢ 0 → handle.new.held ≡ handle.old.held }
{
    if handle.is_started() {
        return STARTED;
    }
    if is_too_small(room) {
        return ROOM;
    }
    let Some(parties) = parties_of(setup, own_name, peer_name) else {
        return NAME;
    };
    let start = Start {
        first_sequence_number: setup.first_sequence_number,
        now,
    };
    match Embedded::new(alloc, parties, start, Signal::new(), setup.version) {
        Ok(it) => {
            handle.put(Held {
                kind: Kind::Signal(it),
            });
            OK
        }
        Err(_) => MEMORY,
    }
}

/// Bytes came from the interlocking, and then the clock was read.
#[unsafe(no_mangle)]
pub extern "C" fn zendurai_signal_hear(handle: &mut Handle, now: u64, bytes: &[u8]) -> u32
    ensures answer { result ≡ answer_in (Hears now bytes.now) (held_signal handle.old.held) }
    ensures does { handle.new.held ≡ held_after (changed_signal (after_call signal_behaviour (Hears now bytes.now))) handle.old.held }
{
    if !handle.is_started() {
        return NOT_STARTED;
    }
    handle.get().signal_hear(now, bytes)
}

/// The clock goes on.
#[unsafe(no_mangle)]
pub extern "C" fn zendurai_signal_tick(handle: &mut Handle, now: u64) -> u32
    ensures answer { result ≡ answer_in (Ticks now) (held_signal handle.old.held) }
    ensures does { handle.new.held ≡ held_after (changed_signal (after_call signal_behaviour (Ticks now))) handle.old.held }
{
    if !handle.is_started() {
        return NOT_STARTED;
    }
    handle.get().signal_tick(now)
}

/// A receive found nothing; `before` was read before it.
#[unsafe(no_mangle)]
pub extern "C" fn zendurai_signal_empty(handle: &mut Handle, before: u64) -> u32
    ensures answer { result ≡ answer_in (FindsEmpty before) (held_signal handle.old.held) }
    ensures does { handle.new.held ≡ held_after (changed_signal (after_call signal_behaviour (FindsEmpty before))) handle.old.held }
{
    if !handle.is_started() {
        return NOT_STARTED;
    }
    handle.get().signal_empty(before)
}

/// What the lamp has to show at a reading, and from when on it shows stop with no call in between.
#[unsafe(no_mangle)]
pub extern "C" fn zendurai_signal_order(handle: &mut Handle, now: u64, lamp: &mut LampOrder) -> u32
    ensures answer { result ≡ answer_in (AsksOrder now) (held_signal handle.old.held) }
    ensures does { handle.new.held ≡ held_after (changed_signal (after_call signal_behaviour (AsksOrder now))) handle.old.held }
    ensures lamp { result ≡ 0 → (it : EmbeddedState SignalState) → held_signal handle.old.held ≡ Some it → lamp.new ≡ lamp_of it.hosted.host.object now }
    ensures same { result ≢ 0 → lamp.new ≡ lamp.old }
{
    if !handle.is_started() {
        return NOT_STARTED;
    }
    handle.get().signal_order(now, lamp)
}

/// The lamp shows what the last step orders: its datagrams may leave.
#[unsafe(no_mangle)]
pub extern "C" fn zendurai_signal_done(handle: &mut Handle) -> u32
    ensures answer { result ≡ answer_in Done (held_signal handle.old.held) }
    ensures does { handle.new.held ≡ held_after (changed_signal (after_call signal_behaviour Done)) handle.old.held }
{
    if !handle.is_started() {
        return NOT_STARTED;
    }
    handle.get().signal_done()
}

/// Takes the next datagram of the last step into the front of `out`, and tells its size: 0 where none is left.
#[unsafe(no_mangle)]
pub extern "C" fn zendurai_signal_next(
    handle: &mut Handle,
    now: u64,
    out: &mut [u8],
    size: &mut usize,
) -> u32
    ensures answer { result ≡ answer_to_next_in (length out.old) now (held_signal handle.old.held) }
    ensures does { handle.new.held ≡ held_after (changed_signal (after_next signal_behaviour (length out.old) now)) handle.old.held }
    ensures given { result ≡ 0 → (it : EmbeddedState SignalState) (datagram : List ℕ) → held_signal handle.old.held ≡ Some it → leaving now it ≡ Some datagram → (size.new ≡ length datagram) × (out.new ≡ datagram ++ drop (length datagram) out.old) }
    ensures none { result ≡ 0 → (it : EmbeddedState SignalState) → held_signal handle.old.held ≡ Some it → leaving now it ≡ None → (size.new ≡ 0) × (out.new ≡ out.old) }
    ensures same { result ≢ 0 → (size.new ≡ size.old) × (out.new ≡ out.old) }
{
    if !handle.is_started() {
        return NOT_STARTED;
    }
    handle.get().signal_next(now, out, size)
}

/// How the link stands at a reading, for a display: 0 closed, 1 opening, 2 up. Nothing changes.
#[unsafe(no_mangle)]
pub extern "C" fn zendurai_signal_link(handle: &mut Handle, now: u64, link: &mut u32) -> u32
    ensures answer { result ≡ answer_where_there (held_signal handle.old.held) }
    ensures held { handle.new.held ≡ handle.old.held }
    ensures link { result ≡ 0 → (it : EmbeddedState SignalState) → held_signal handle.old.held ≡ Some it → link.new ≡ link_number (state_at now it.hosted.host.link) }
    ensures same { result ≢ 0 → link.new ≡ link.old }
{
    if !handle.is_started() {
        return NOT_STARTED;
    }
    handle.get().signal_link(now, link)
}
