//! Points, as C calls them.

ghost use Rattle.std.specs.Prelude.{◌≡◌, ◌≢◌, ◌≤◌, ◌<◌, ◌⊎◌, ◌++◌, ℕ, List, None, Some, drop, false, true, length};
ghost use Rattle.rasta_core.specs.Clock.{state_at};
ghost use Rattle.sci_telegram.specs.Names.{IsName};
ghost use Rattle.sci_telegram.specs.declared.message.Position.{Position};
ghost use Rattle.embedded_host.specs.Calls.{AsksOrder, Done, FindsEmpty, Hears, Ticks, after_call};
ghost use Rattle.embedded_host.specs.Embedded.{EmbeddedState, leaving};
ghost use Rattle.point_ctl.specs.Controlled.{point_behaviour};
ghost use Rattle.point_ctl.specs.Drive.{PointState, made};
ghost use Rattle.controllers_c.specs.Answers.{after_contact, after_next, answer_in, answer_to_contact, answer_to_next_in, answer_where_there};
ghost use Rattle.controllers_c.specs.Kinds.{changed_point, held_after, held_point, point_in};
ghost use Rattle.controllers_c.specs.Links.{link_number};
ghost use Rattle.controllers_c.specs.Owned.{is_started};
ghost use Rattle.controllers_c.specs.Setups.{set_up};
ghost use Rattle.controllers_c.specs.Points.{contact_of, drive_told, position_of};
ghost use Rattle.controllers_c.specs.declared.held.Kind.TheVariants.{Point as PointKind};

use crate::answers::{MEMORY, NAME, NOT_STARTED, OK, ROOM, STARTED, VALUE, number_of};
use crate::datagram::next;
use crate::drive::{DriveOrder, contact_of, drive_told, position_of};
use crate::handle::Handle;
use crate::held::{Held, Kind};
use crate::link::link_number;
use crate::room::is_too_small;
use crate::setup::{Setup, parties_of};
use embedded_host::Embedded;
use object_host::Sense;
use point_ctl::Point;
use rasta_core::Start;
use std::alloc::Global;

impl Held {
    fn point_hear(&mut self, now: u64, bytes: &[u8]) -> u32
        ensures answer { result ≡ answer_in (Hears now bytes.now) (point_in self.old.kind) }
        ensures does { self.new.kind ≡ changed_point (after_call point_behaviour (Hears now bytes.now)) self.old.kind }
    {
        match &mut self.kind {
            Kind::Point(it) => number_of(it.hear(now, bytes)),
            _ => NOT_STARTED,
        }
    }

    fn point_tick(&mut self, now: u64) -> u32
        ensures answer { result ≡ answer_in (Ticks now) (point_in self.old.kind) }
        ensures does { self.new.kind ≡ changed_point (after_call point_behaviour (Ticks now)) self.old.kind }
    {
        match &mut self.kind {
            Kind::Point(it) => number_of(it.tick(now)),
            _ => NOT_STARTED,
        }
    }

    fn point_empty(&mut self, before: u64) -> u32
        ensures answer { result ≡ answer_in (FindsEmpty before) (point_in self.old.kind) }
        ensures does { self.new.kind ≡ changed_point (after_call point_behaviour (FindsEmpty before)) self.old.kind }
    {
        match &mut self.kind {
            Kind::Point(it) => number_of(it.empty(before)),
            _ => NOT_STARTED,
        }
    }

    fn point_reached(&mut self, now: u64, sense: Option<Sense>) -> u32
        ensures answer { result ≡ answer_to_contact 11 now sense (point_in self.old.kind) }
        ensures does { self.new.kind ≡ changed_point (after_contact point_behaviour now sense) self.old.kind }
    {
        match &mut self.kind {
            Kind::Point(it) => match sense {
                Some(sense) => number_of(it.sense(now, sense)),
                None => VALUE,
            },
            _ => NOT_STARTED,
        }
    }

    fn point_order(&mut self, now: u64, drive: &mut DriveOrder) -> u32
        ensures answer { result ≡ answer_in (AsksOrder now) (point_in self.old.kind) }
        ensures does { self.new.kind ≡ changed_point (after_call point_behaviour (AsksOrder now)) self.old.kind }
        ensures drive { result ≡ 0 → (it : EmbeddedState PointState) → point_in self.old.kind ≡ Some it → drive.new ≡ drive_told it.hosted.host.object now }
        ensures same { result ≢ 0 → drive.new ≡ drive.old }
    {
        match &mut self.kind {
            Kind::Point(it) => match it.ask(now) {
                Ok(()) => {
                    *drive = drive_told(it.object(), now);
                    OK
                }
                Err(refusal) => number_of(Err(refusal)),
            },
            _ => NOT_STARTED,
        }
    }

    fn point_done(&mut self) -> u32
        ensures answer { result ≡ answer_in Done (point_in self.old.kind) }
        ensures does { self.new.kind ≡ changed_point (after_call point_behaviour Done) self.old.kind }
    {
        match &mut self.kind {
            Kind::Point(it) => {
                it.done();
                OK
            }
            _ => NOT_STARTED,
        }
    }

    fn point_next(&mut self, now: u64, out: &mut [u8], size: &mut usize) -> u32
        ensures answer { result ≡ answer_to_next_in (length out.old) now (point_in self.old.kind) }
        ensures does { self.new.kind ≡ changed_point (after_next point_behaviour (length out.old) now) self.old.kind }
        ensures given { result ≡ 0 → (it : EmbeddedState PointState) (datagram : List ℕ) → point_in self.old.kind ≡ Some it → leaving now it ≡ Some datagram → (size.new ≡ length datagram) × (out.new ≡ datagram ++ drop (length datagram) out.old) }
        ensures none { result ≡ 0 → (it : EmbeddedState PointState) → point_in self.old.kind ≡ Some it → leaving now it ≡ None → (size.new ≡ 0) × (out.new ≡ out.old) }
        ensures same { result ≢ 0 → (size.new ≡ size.old) × (out.new ≡ out.old) }
    {
        match &mut self.kind {
            Kind::Point(it) => next(it, now, out, size),
            _ => NOT_STARTED,
        }
    }

    fn point_link(&mut self, now: u64, link: &mut u32) -> u32
        ensures answer { result ≡ answer_where_there (point_in self.old.kind) }
        ensures kind { self.new.kind ≡ self.old.kind }
        ensures link { result ≡ 0 → (it : EmbeddedState PointState) → point_in self.old.kind ≡ Some it → link.new ≡ link_number (state_at now it.hosted.host.link) }
        ensures same { result ≢ 0 → link.new ≡ link.old }
    {
        match &mut self.kind {
            Kind::Point(it) => {
                *link = link_number(it.link(now));
                OK
            }
            _ => NOT_STARTED,
        }
    }
}

/// Starts a controller in the room of a handle, of which there are so many bytes, of a point that lies there.
#[unsafe(no_mangle)]
pub extern "C" fn zendurai_point_start(
    alloc: Global,
    handle: &mut Handle,
    room: usize,
    setup: &Setup,
    own_name: &[u8],
    peer_name: &[u8],
    position: u32,
    now: u64,
) -> u32
    ensures started { is_started handle.old.held ≡ true → result ≡ 2 }
    ensures room { is_started handle.old.held ≡ false → room < 1024 → result ≡ 3 }
    ensures name { is_started handle.old.held ≡ false → 1024 ≤ room → ((IsName own_name.now × IsName peer_name.now) → ⊥) → result ≡ 4 }
    ensures value { is_started handle.old.held ≡ false → 1024 ≤ room → IsName own_name.now → IsName peer_name.now → position_of position ≡ None → result ≡ 11 }
    ensures accepted { is_started handle.old.held ≡ false → 1024 ≤ room → IsName own_name.now → IsName peer_name.now → (place : Position) → position_of position ≡ Some place → (result ≡ 0) ⊎ (result ≡ 5) }
    ensures does { result ≡ 0 → (place : Position) → position_of position ≡ Some place → handle.new.held ≡ Some (record { kind = PointKind (set_up point_behaviour setup.now own_name.now peer_name.now now (made place)) }) }
    ensures same { result ≢ 0 → handle.new.held ≡ handle.old.held }
{
    if handle.is_started() {
        return STARTED;
    }
    if is_too_small(room) {
        return ROOM;
    }
    let Some(parties) = parties_of(setup, own_name, peer_name) else {
        return NAME;
    };
    let Some(position) = position_of(position) else {
        return VALUE;
    };
    let start = Start {
        first_sequence_number: setup.first_sequence_number,
        now,
    };
    match Embedded::new(alloc, parties, start, Point::new(position), setup.version) {
        Ok(it) => {
            handle.put(Held {
                kind: Kind::Point(it),
            });
            OK
        }
        Err(_) => MEMORY,
    }
}

/// Bytes came from the interlocking, and then the clock was read.
#[unsafe(no_mangle)]
pub extern "C" fn zendurai_point_hear(handle: &mut Handle, now: u64, bytes: &[u8]) -> u32
    ensures answer { result ≡ answer_in (Hears now bytes.now) (held_point handle.old.held) }
    ensures does { handle.new.held ≡ held_after (changed_point (after_call point_behaviour (Hears now bytes.now))) handle.old.held }
{
    if !handle.is_started() {
        return NOT_STARTED;
    }
    handle.get().point_hear(now, bytes)
}

/// The clock goes on.
#[unsafe(no_mangle)]
pub extern "C" fn zendurai_point_tick(handle: &mut Handle, now: u64) -> u32
    ensures answer { result ≡ answer_in (Ticks now) (held_point handle.old.held) }
    ensures does { handle.new.held ≡ held_after (changed_point (after_call point_behaviour (Ticks now))) handle.old.held }
{
    if !handle.is_started() {
        return NOT_STARTED;
    }
    handle.get().point_tick(now)
}

/// A receive found nothing; `before` was read before it.
#[unsafe(no_mangle)]
pub extern "C" fn zendurai_point_empty(handle: &mut Handle, before: u64) -> u32
    ensures answer { result ≡ answer_in (FindsEmpty before) (held_point handle.old.held) }
    ensures does { handle.new.held ≡ held_after (changed_point (after_call point_behaviour (FindsEmpty before))) handle.old.held }
{
    if !handle.is_started() {
        return NOT_STARTED;
    }
    handle.get().point_empty(before)
}

/// The contacts tell that the point lies there, and then the clock was read.
#[unsafe(no_mangle)]
pub extern "C" fn zendurai_point_reached(handle: &mut Handle, now: u64, position: u32) -> u32
    ensures answer { result ≡ answer_to_contact 11 now (contact_of position) (held_point handle.old.held) }
    ensures does { handle.new.held ≡ held_after (changed_point (after_contact point_behaviour now (contact_of position))) handle.old.held }
{
    if !handle.is_started() {
        return NOT_STARTED;
    }
    handle.get().point_reached(now, contact_of(position))
}

/// To where the motor has to drive at a reading, and from when on it doesn't drive with no call in between.
#[unsafe(no_mangle)]
pub extern "C" fn zendurai_point_order(handle: &mut Handle, now: u64, drive: &mut DriveOrder) -> u32
    ensures answer { result ≡ answer_in (AsksOrder now) (held_point handle.old.held) }
    ensures does { handle.new.held ≡ held_after (changed_point (after_call point_behaviour (AsksOrder now))) handle.old.held }
    ensures drive { result ≡ 0 → (it : EmbeddedState PointState) → held_point handle.old.held ≡ Some it → drive.new ≡ drive_told it.hosted.host.object now }
    ensures same { result ≢ 0 → drive.new ≡ drive.old }
{
    if !handle.is_started() {
        return NOT_STARTED;
    }
    handle.get().point_order(now, drive)
}

/// The motor does what the last step orders: its datagrams may leave.
#[unsafe(no_mangle)]
pub extern "C" fn zendurai_point_done(handle: &mut Handle) -> u32
    ensures answer { result ≡ answer_in Done (held_point handle.old.held) }
    ensures does { handle.new.held ≡ held_after (changed_point (after_call point_behaviour Done)) handle.old.held }
{
    if !handle.is_started() {
        return NOT_STARTED;
    }
    handle.get().point_done()
}

/// Takes the next datagram of the last step into the front of `out`, and tells its size: 0 where none is left.
#[unsafe(no_mangle)]
pub extern "C" fn zendurai_point_next(
    handle: &mut Handle,
    now: u64,
    out: &mut [u8],
    size: &mut usize,
) -> u32
    ensures answer { result ≡ answer_to_next_in (length out.old) now (held_point handle.old.held) }
    ensures does { handle.new.held ≡ held_after (changed_point (after_next point_behaviour (length out.old) now)) handle.old.held }
    ensures given { result ≡ 0 → (it : EmbeddedState PointState) (datagram : List ℕ) → held_point handle.old.held ≡ Some it → leaving now it ≡ Some datagram → (size.new ≡ length datagram) × (out.new ≡ datagram ++ drop (length datagram) out.old) }
    ensures none { result ≡ 0 → (it : EmbeddedState PointState) → held_point handle.old.held ≡ Some it → leaving now it ≡ None → (size.new ≡ 0) × (out.new ≡ out.old) }
    ensures same { result ≢ 0 → (size.new ≡ size.old) × (out.new ≡ out.old) }
{
    if !handle.is_started() {
        return NOT_STARTED;
    }
    handle.get().point_next(now, out, size)
}

/// How the link stands at a reading, for a display: 0 closed, 1 opening, 2 up. Nothing changes.
#[unsafe(no_mangle)]
pub extern "C" fn zendurai_point_link(handle: &mut Handle, now: u64, link: &mut u32) -> u32
    ensures answer { result ≡ answer_where_there (held_point handle.old.held) }
    ensures held { handle.new.held ≡ handle.old.held }
    ensures link { result ≡ 0 → (it : EmbeddedState PointState) → held_point handle.old.held ≡ Some it → link.new ≡ link_number (state_at now it.hosted.host.link) }
    ensures same { result ≢ 0 → link.new ≡ link.old }
{
    if !handle.is_started() {
        return NOT_STARTED;
    }
    handle.get().point_link(now, link)
}
