//! What is known of the things of a station, for a display. Nothing changes. What stands at no place isn't known, and no route there is
//! set.

ghost use Rattle.std.specs.Prelude.{◌≡◌, ◌≢◌, Some};
ghost use Rattle.embedded_ixl.specs.Embedded.{EmbeddedIxlState};
ghost use Rattle.embedded_ixl.specs.ixl_state.ixl_spec.closings.Closed.{is_closed};
ghost use Rattle.embedded_ixl.specs.ixl_state.ixl_spec.closings.declared.thing.Thing.{Thing as Meant};
ghost use Rattle.interlocking_c.specs.Answers.{answer_where_there};
ghost use Rattle.interlocking_c.specs.Kept.{held_interlocking};
ghost use Rattle.interlocking_c.specs.Known.{aspect_told, authority_at, authority_told, indicated_at, is_linked_at, is_set, occupancy_told, readiness_at, readiness_told, section_at, side_at, side_told, truth_told};
ghost use Rattle.interlocking_c.specs.Things.{answer_to_thing, thing_of};

use crate::answers::{NOT_STARTED, OK, VALUE};
use crate::handle::Handle;
use crate::held::Held;
use crate::known::{
    AuthorityTold, aspect_told, authority_told, occupancy_told, readiness_told, side_told,
    truth_told,
};
use crate::things::thing_of;
use embedded_ixl::Thing;

impl Held {
    fn authority(&self, signal: usize) -> AuthorityTold
        ensures { result ≡ authority_told (authority_at self.now.embedded signal) }
    {
        authority_told(self.embedded.authority(signal))
    }

    fn indicated(&self, signal: usize) -> u32
        ensures { result ≡ aspect_told (indicated_at self.now.embedded signal) }
    {
        aspect_told(self.embedded.indicated(signal))
    }

    fn section(&self, section: usize) -> u32
        ensures { result ≡ occupancy_told (section_at self.now.embedded section) }
    {
        occupancy_told(self.embedded.section(section))
    }

    fn point(&self, point: usize) -> u32
        ensures { result ≡ side_told (side_at self.now.embedded point) }
    {
        side_told(self.embedded.point(point))
    }

    fn route(&self, route: usize) -> u32
        ensures { result ≡ truth_told (is_set self.now.embedded route) }
    {
        truth_told(self.embedded.is_set(route))
    }

    fn closed(&self, thing: Thing) -> u32
        ensures { result ≡ truth_told (is_closed self.now.embedded.interlocking.state.ixl.closed thing) }
    {
        truth_told(self.embedded.closed().is_closed(thing))
    }

    fn link(&self, node: usize) -> u32
        ensures { result ≡ truth_told (is_linked_at self.now.embedded node) }
    {
        truth_told(self.embedded.is_linked(node))
    }

    fn readiness(&self, now: u64) -> u32
        ensures { result ≡ readiness_told (readiness_at now self.now.embedded) }
    {
        readiness_told(self.embedded.readiness(now))
    }
}

/// Which route has authority from a signal, and with which aspect.
#[unsafe(no_mangle)]
pub extern "C" fn zendurai_interlocking_authority(
    handle: &mut Handle,
    signal: usize,
    authority: &mut AuthorityTold,
) -> u32
    ensures answer { result ≡ answer_where_there (held_interlocking handle.old.held) }
    ensures held { handle.new.held ≡ handle.old.held }
    ensures authority { result ≡ 0 → (it : EmbeddedIxlState) → held_interlocking handle.old.held ≡ Some it → authority.new ≡ authority_told (authority_at it signal) }
    ensures same { result ≢ 0 → authority.new ≡ authority.old }
{
    if !handle.is_started() {
        return NOT_STARTED;
    }
    *authority = handle.get().authority(signal);
    OK
}

/// Which aspect a signal told last in its present connection: 3 where it told none.
#[unsafe(no_mangle)]
pub extern "C" fn zendurai_interlocking_indicated(
    handle: &mut Handle,
    signal: usize,
    aspect: &mut u32,
) -> u32
    ensures answer { result ≡ answer_where_there (held_interlocking handle.old.held) }
    ensures held { handle.new.held ≡ handle.old.held }
    ensures aspect { result ≡ 0 → (it : EmbeddedIxlState) → held_interlocking handle.old.held ≡ Some it → aspect.new ≡ aspect_told (indicated_at it signal) }
    ensures same { result ≢ 0 → aspect.new ≡ aspect.old }
{
    if !handle.is_started() {
        return NOT_STARTED;
    }
    *aspect = handle.get().indicated(signal);
    OK
}

/// Whether a section is known to be clear, 0, or occupied, 1: 2 where neither is.
#[unsafe(no_mangle)]
pub extern "C" fn zendurai_interlocking_section(
    handle: &mut Handle,
    section: usize,
    state: &mut u32,
) -> u32
    ensures answer { result ≡ answer_where_there (held_interlocking handle.old.held) }
    ensures held { handle.new.held ≡ handle.old.held }
    ensures state { result ≡ 0 → (it : EmbeddedIxlState) → held_interlocking handle.old.held ≡ Some it → state.new ≡ occupancy_told (section_at it section) }
    ensures same { result ≢ 0 → state.new ≡ state.old }
{
    if !handle.is_started() {
        return NOT_STARTED;
    }
    *state = handle.get().section(section);
    OK
}

/// At which side a point is known to lie: 1 left, 2 right, 0 where neither is known.
#[unsafe(no_mangle)]
pub extern "C" fn zendurai_interlocking_point(
    handle: &mut Handle,
    point: usize,
    side: &mut u32,
) -> u32
    ensures answer { result ≡ answer_where_there (held_interlocking handle.old.held) }
    ensures held { handle.new.held ≡ handle.old.held }
    ensures side { result ≡ 0 → (it : EmbeddedIxlState) → held_interlocking handle.old.held ≡ Some it → side.new ≡ side_told (side_at it point) }
    ensures same { result ≢ 0 → side.new ≡ side.old }
{
    if !handle.is_started() {
        return NOT_STARTED;
    }
    *side = handle.get().point(point);
    OK
}

/// Whether a route is set.
#[unsafe(no_mangle)]
pub extern "C" fn zendurai_interlocking_route(
    handle: &mut Handle,
    route: usize,
    set: &mut u32,
) -> u32
    ensures answer { result ≡ answer_where_there (held_interlocking handle.old.held) }
    ensures held { handle.new.held ≡ handle.old.held }
    ensures set { result ≡ 0 → (it : EmbeddedIxlState) → held_interlocking handle.old.held ≡ Some it → set.new ≡ truth_told (is_set it route) }
    ensures same { result ≢ 0 → set.new ≡ set.old }
{
    if !handle.is_started() {
        return NOT_STARTED;
    }
    *set = handle.get().route(route);
    OK
}

/// Whether a signal, 0, a point at a side, 1, a section, 2, or a route, 3, is closed. The side is 1 left or 2 right.
#[unsafe(no_mangle)]
pub extern "C" fn zendurai_interlocking_closed(
    handle: &mut Handle,
    kind: u32,
    place: usize,
    side: u32,
    closed: &mut u32,
) -> u32
    ensures answer { result ≡ answer_to_thing (thing_of kind place side) (held_interlocking handle.old.held) }
    ensures held { handle.new.held ≡ handle.old.held }
    ensures closed { result ≡ 0 → (it : EmbeddedIxlState) (thing : Meant) → held_interlocking handle.old.held ≡ Some it → thing_of kind place side ≡ Some thing → closed.new ≡ truth_told (is_closed it.interlocking.state.ixl.closed thing) }
    ensures same { result ≢ 0 → closed.new ≡ closed.old }
{
    if !handle.is_started() {
        return NOT_STARTED;
    }
    match thing_of(kind, place, side) {
        Some(thing) => {
            *closed = handle.get().closed(thing);
            OK
        }
        None => VALUE,
    }
}

/// Whether the initialisation of the controller of a node is completed in its present connection.
#[unsafe(no_mangle)]
pub extern "C" fn zendurai_interlocking_link(
    handle: &mut Handle,
    node: usize,
    linked: &mut u32,
) -> u32
    ensures answer { result ≡ answer_where_there (held_interlocking handle.old.held) }
    ensures held { handle.new.held ≡ handle.old.held }
    ensures linked { result ≡ 0 → (it : EmbeddedIxlState) → held_interlocking handle.old.held ≡ Some it → linked.new ≡ truth_told (is_linked_at it node) }
    ensures same { result ≢ 0 → linked.new ≡ linked.old }
{
    if !handle.is_started() {
        return NOT_STARTED;
    }
    *linked = handle.get().link(node);
    OK
}

/// Whether requests are taken at a reading, 2; or not before it is told to resume, 1; or not yet, 0.
#[unsafe(no_mangle)]
pub extern "C" fn zendurai_interlocking_readiness(
    handle: &mut Handle,
    now: u64,
    readiness: &mut u32,
) -> u32
    ensures answer { result ≡ answer_where_there (held_interlocking handle.old.held) }
    ensures held { handle.new.held ≡ handle.old.held }
    ensures readiness { result ≡ 0 → (it : EmbeddedIxlState) → held_interlocking handle.old.held ≡ Some it → readiness.new ≡ readiness_told (readiness_at now it) }
    ensures same { result ≢ 0 → readiness.new ≡ readiness.old }
{
    if !handle.is_started() {
        return NOT_STARTED;
    }
    *readiness = handle.get().readiness(now);
    OK
}
