//! Detectors, as C calls them. A detector has no order: a step of it is in force at once.

ghost use Rattle.std.specs.Prelude.{◌≡◌, ◌≢◌, ◌≤◌, ◌<◌, ◌⊎◌, ◌++◌, ℕ, List, None, Some, drop, false, true, length, map};
ghost use Rattle.rasta_core.specs.Clock.{state_at};
ghost use Rattle.sci_telegram.specs.Names.{IsName};
ghost use Rattle.sci_telegram.specs.declared.message.Occupancy.{Occupancy};
ghost use Rattle.embedded_host.specs.Calls.{FindsEmpty, Hears, Ticks, after_call};
ghost use Rattle.embedded_host.specs.Embedded.{EmbeddedState, leaving};
ghost use Rattle.tds_ctl.specs.Controlled.{detection_behaviour};
ghost use Rattle.tds_ctl.specs.Sections.{made};
ghost use Rattle.tds_ctl.specs.declared.section.Section.{Section};
ghost use Rattle.controllers_c.specs.Answers.{after_next, answer_in, answer_to_next_in, answer_where_there, number_of};
ghost use Rattle.controllers_c.specs.Detectors.{after_report, after_step_done, answer_to_report, answer_to_report_in, settled_by};
ghost use Rattle.controllers_c.specs.Kinds.{changed_detector, held_after, held_detector, detector_in};
ghost use Rattle.controllers_c.specs.Links.{link_number};
ghost use Rattle.controllers_c.specs.Owned.{is_started};
ghost use Rattle.controllers_c.specs.Setups.{set_up};
ghost use Rattle.controllers_c.specs.Sections.{AreNamed, spelled_all};
ghost use Rattle.controllers_c.specs.declared.held.Kind.TheVariants.{Detector as DetectorKind};

use crate::answers::{MEMORY, NAME, NOT_STARTED, OK, PLACE, ROOM, STARTED, VALUE, number_of};
use crate::datagram::next;
use crate::handle::Handle;
use crate::held::{Held, Kind};
use crate::link::link_number;
use crate::room::is_too_small;
use crate::sections::{contact_of, detection_of};
use crate::setup::{Setup, parties_of};
use embedded_host::{Embedded, Refusal};
use object_host::Controller;
use rasta_core::Start;
use std::alloc::Global;
use tds_ctl::Detection;

/// A step that was accepted is in force at once. It answers the number of the answer.
fn settled(it: &mut Embedded<Detection>, answer: Result<(), Refusal>) -> u32
    ensures answer { result ≡ number_of answer }
    ensures does { it.new ≡ settled_by answer it.old }
{
    match answer {
        Ok(()) => {
            it.done();
            OK
        }
        Err(refusal) => number_of(Err(refusal)),
    }
}

/// A contact of the section at this place tells this state, by its number.
fn report(it: &mut Embedded<Detection>, now: u64, place: usize, state: u32) -> u32
    ensures answer { result ≡ answer_to_report now place state it.old }
    ensures does { it.new ≡ after_report now place state it.old }
{
    if it.object().status(place).is_none() {
        return PLACE;
    }
    match contact_of(place, state) {
        Some(sense) => {
            let answer = it.sense(now, sense);
            settled(it, answer)
        }
        None => VALUE,
    }
}

impl Held {
    fn detector_hear(&mut self, now: u64, bytes: &[u8]) -> u32
        ensures answer { result ≡ answer_in (Hears now bytes.now) (detector_in self.old.kind) }
        ensures does { self.new.kind ≡ changed_detector (after_step_done detection_behaviour (Hears now bytes.now)) self.old.kind }
    {
        match &mut self.kind {
            Kind::Detector(it) => {
                let answer = it.hear(now, bytes);
                settled(it, answer)
            }
            _ => NOT_STARTED,
        }
    }

    fn detector_tick(&mut self, now: u64) -> u32
        ensures answer { result ≡ answer_in (Ticks now) (detector_in self.old.kind) }
        ensures does { self.new.kind ≡ changed_detector (after_step_done detection_behaviour (Ticks now)) self.old.kind }
    {
        match &mut self.kind {
            Kind::Detector(it) => {
                let answer = it.tick(now);
                settled(it, answer)
            }
            _ => NOT_STARTED,
        }
    }

    fn detector_empty(&mut self, before: u64) -> u32
        ensures answer { result ≡ answer_in (FindsEmpty before) (detector_in self.old.kind) }
        ensures does { self.new.kind ≡ changed_detector (after_call detection_behaviour (FindsEmpty before)) self.old.kind }
    {
        match &mut self.kind {
            Kind::Detector(it) => number_of(it.empty(before)),
            _ => NOT_STARTED,
        }
    }

    fn detector_report(&mut self, now: u64, place: usize, state: u32) -> u32
        ensures answer { result ≡ answer_to_report_in now place state (detector_in self.old.kind) }
        ensures does { self.new.kind ≡ changed_detector (after_report now place state) self.old.kind }
    {
        match &mut self.kind {
            Kind::Detector(it) => report(it, now, place, state),
            _ => NOT_STARTED,
        }
    }

    fn detector_next(&mut self, now: u64, out: &mut [u8], size: &mut usize) -> u32
        ensures answer { result ≡ answer_to_next_in (length out.old) now (detector_in self.old.kind) }
        ensures does { self.new.kind ≡ changed_detector (after_next detection_behaviour (length out.old) now) self.old.kind }
        ensures given { result ≡ 0 → (it : EmbeddedState (List Section)) (datagram : List ℕ) → detector_in self.old.kind ≡ Some it → leaving now it ≡ Some datagram → (size.new ≡ length datagram) × (out.new ≡ datagram ++ drop (length datagram) out.old) }
        ensures none { result ≡ 0 → (it : EmbeddedState (List Section)) → detector_in self.old.kind ≡ Some it → leaving now it ≡ None → (size.new ≡ 0) × (out.new ≡ out.old) }
        ensures same { result ≢ 0 → (size.new ≡ size.old) × (out.new ≡ out.old) }
    {
        match &mut self.kind {
            Kind::Detector(it) => next(it, now, out, size),
            _ => NOT_STARTED,
        }
    }

    fn detector_link(&mut self, now: u64, link: &mut u32) -> u32
        ensures answer { result ≡ answer_where_there (detector_in self.old.kind) }
        ensures kind { self.new.kind ≡ self.old.kind }
        ensures link { result ≡ 0 → (it : EmbeddedState (List Section)) → detector_in self.old.kind ≡ Some it → link.new ≡ link_number (state_at now it.hosted.host.link) }
        ensures same { result ≢ 0 → link.new ≡ link.old }
    {
        match &mut self.kind {
            Kind::Detector(it) => {
                *link = link_number(it.link(now));
                OK
            }
            _ => NOT_STARTED,
        }
    }
}

/// Starts a controller in the room of a handle, of which there are so many bytes, of a detector of these sections.
#[unsafe(no_mangle)]
pub extern "C" fn zendurai_detector_start(
    alloc: Global,
    handle: &mut Handle,
    room: usize,
    setup: &Setup,
    own_name: &[u8],
    peer_name: &[u8],
    sections: &[u8],
    now: u64,
) -> u32
    ensures started { is_started handle.old.held ≡ true → result ≡ 2 }
    ensures room { is_started handle.old.held ≡ false → room < 1024 → result ≡ 3 }
    ensures name { is_started handle.old.held ≡ false → 1024 ≤ room → ((IsName own_name.now × IsName peer_name.now) → ⊥) → result ≡ 4 }
    ensures accepted { is_started handle.old.held ≡ false → 1024 ≤ room → IsName own_name.now → IsName peer_name.now → (told : List (List ℕ × Occupancy)) → AreNamed told → length told ≤ 16 → sections.now ≡ spelled_all told → (result ≡ 0) ⊎ (result ≡ 5) }
    ensures sections { is_started handle.old.held ≡ false → 1024 ≤ room → IsName own_name.now → IsName peer_name.now → (result ≡ 0) ⊎ ((result ≡ 5) ⊎ (result ≡ 10)) }
    ensures does { result ≡ 0 → (told : List (List ℕ × Occupancy)) × (sections.now ≡ spelled_all told) × (length told ≤ 16) × (handle.new.held ≡ Some (record { kind = DetectorKind (set_up detection_behaviour setup.now own_name.now peer_name.now now (map made told)) })) }
    ensures same { result ≢ 0 → handle.new.held ≡ handle.old.held }
{
    if handle.is_started() {
        return STARTED;
    }
    if is_too_small(room) {
        return ROOM;
    }
    let Some(parties) = parties_of(setup, own_name, peer_name) else {
        return NAME;
    };
    let Some(detection) = detection_of(sections) else {
        return PLACE;
    };
    let start = Start {
        first_sequence_number: setup.first_sequence_number,
        now,
    };
    match Embedded::new(alloc, parties, start, detection, setup.version) {
        Ok(it) => {
            handle.put(Held {
                kind: Kind::Detector(it),
            });
            OK
        }
        Err(_) => MEMORY,
    }
}

/// Bytes came from the interlocking, and then the clock was read.
#[unsafe(no_mangle)]
pub extern "C" fn zendurai_detector_hear(handle: &mut Handle, now: u64, bytes: &[u8]) -> u32
    ensures answer { result ≡ answer_in (Hears now bytes.now) (held_detector handle.old.held) }
    ensures does { handle.new.held ≡ held_after (changed_detector (after_step_done detection_behaviour (Hears now bytes.now))) handle.old.held }
{
    if !handle.is_started() {
        return NOT_STARTED;
    }
    handle.get().detector_hear(now, bytes)
}

/// The clock goes on.
#[unsafe(no_mangle)]
pub extern "C" fn zendurai_detector_tick(handle: &mut Handle, now: u64) -> u32
    ensures answer { result ≡ answer_in (Ticks now) (held_detector handle.old.held) }
    ensures does { handle.new.held ≡ held_after (changed_detector (after_step_done detection_behaviour (Ticks now))) handle.old.held }
{
    if !handle.is_started() {
        return NOT_STARTED;
    }
    handle.get().detector_tick(now)
}

/// A receive found nothing; `before` was read before it.
#[unsafe(no_mangle)]
pub extern "C" fn zendurai_detector_empty(handle: &mut Handle, before: u64) -> u32
    ensures answer { result ≡ answer_in (FindsEmpty before) (held_detector handle.old.held) }
    ensures does { handle.new.held ≡ held_after (changed_detector (after_call detection_behaviour (FindsEmpty before))) handle.old.held }
{
    if !handle.is_started() {
        return NOT_STARTED;
    }
    handle.get().detector_empty(before)
}

/// The contacts of the section at this place of the detector's own list tell its state, and then the clock was read.
#[unsafe(no_mangle)]
pub extern "C" fn zendurai_detector_report(
    handle: &mut Handle,
    now: u64,
    place: usize,
    state: u32,
) -> u32
    ensures answer { result ≡ answer_to_report_in now place state (held_detector handle.old.held) }
    ensures does { handle.new.held ≡ held_after (changed_detector (after_report now place state)) handle.old.held }
{
    if !handle.is_started() {
        return NOT_STARTED;
    }
    handle.get().detector_report(now, place, state)
}

/// Takes the next datagram of the last step into the front of `out`, and tells its size: 0 where none is left.
#[unsafe(no_mangle)]
pub extern "C" fn zendurai_detector_next(
    handle: &mut Handle,
    now: u64,
    out: &mut [u8],
    size: &mut usize,
) -> u32
    ensures answer { result ≡ answer_to_next_in (length out.old) now (held_detector handle.old.held) }
    ensures does { handle.new.held ≡ held_after (changed_detector (after_next detection_behaviour (length out.old) now)) handle.old.held }
    ensures given { result ≡ 0 → (it : EmbeddedState (List Section)) (datagram : List ℕ) → held_detector handle.old.held ≡ Some it → leaving now it ≡ Some datagram → (size.new ≡ length datagram) × (out.new ≡ datagram ++ drop (length datagram) out.old) }
    ensures none { result ≡ 0 → (it : EmbeddedState (List Section)) → held_detector handle.old.held ≡ Some it → leaving now it ≡ None → (size.new ≡ 0) × (out.new ≡ out.old) }
    ensures same { result ≢ 0 → (size.new ≡ size.old) × (out.new ≡ out.old) }
{
    if !handle.is_started() {
        return NOT_STARTED;
    }
    handle.get().detector_next(now, out, size)
}

/// How the link stands at a reading, for a display: 0 closed, 1 opening, 2 up. Nothing changes.
#[unsafe(no_mangle)]
pub extern "C" fn zendurai_detector_link(handle: &mut Handle, now: u64, link: &mut u32) -> u32
    ensures answer { result ≡ answer_where_there (held_detector handle.old.held) }
    ensures held { handle.new.held ≡ handle.old.held }
    ensures link { result ≡ 0 → (it : EmbeddedState (List Section)) → held_detector handle.old.held ≡ Some it → link.new ≡ link_number (state_at now it.hosted.host.link) }
    ensures same { result ≢ 0 → link.new ≡ link.old }
{
    if !handle.is_started() {
        return NOT_STARTED;
    }
    handle.get().detector_link(now, link)
}
