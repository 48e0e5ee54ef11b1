//! Why a command is refused.

ghost use Rattle.std.specs.Prelude.{None, ◌≡◌, ◌<◌, ◌&&◌, ◌||◌, not, false, length, slice_get};
ghost use Rattle.std.specs.List.{list_all};
ghost use Rattle.ixl_state.specs.ixl_spec.Commands.{cancel_refusal, closed_refusal, is_point_wanting, locking_refusal, refusal, refused_where, request_refusal};
ghost use Rattle.ixl_state.specs.ixl_spec.declared.command.Refusal.TheVariants as refusals;
ghost use Rattle.ixl_state.specs.ixl_spec.View.{is_at_known_stop, is_holding, is_occupied, is_set, is_signal_ready, is_unknown};
ghost use Rattle.ixl_state.specs.State.{AtRoute};
ghost use Rattle.ixl.specs.inside.Parts.{first_where};

use crate::operation_refusals::{close_refusal, move_refusal, open_refusal, release_refusal};
use crate::operations::first_closed;
use ixl_state::ixl_table::Need;
use ixl_state::{Command, HOLD_TIME, Millis, PointId, Refusal, RouteId, SectionId, State};

/// Whether the hold after the creation isn't over.
pub(crate) fn is_holding(state: &State, now: Millis) -> bool
    ensures { result ≡ is_holding now state.now.ixl }
{
    now < state.created().saturating_add(HOLD_TIME)
}

/// Whether a section was last told as occupied, by a detector that is ready.
pub(crate) fn is_occupied(state: &State, section: usize) -> bool
    ensures { result ≡ is_occupied state.now.sited.table state.now.ixl section }
{
    state.field().is_occupied(section)
}

/// Whether the detector of a section isn't ready.
pub(crate) fn is_unknown(state: &State, section: usize) -> bool
    ensures { result ≡ is_unknown state.now.sited.table state.now.ixl section }
{
    !state.field().is_clear(section) && !state.field().is_occupied(section)
}

/// Whether a point is neither available nor held at the side at which a route requires it.
fn is_point_wanting(state: &State, need: Need) -> bool
    ensures { result ≡ is_point_wanting state.now.sited.table state.now.ixl need }
{
    !state.field().is_point_available(need.point()) && !state.is_held_at(need.point(), need.side())
}

/// Whether the link of a signal is ready, and the signal at known stop.
fn is_signal_there(state: &State, now: Millis, signal: usize) -> bool
    ensures { result ≡ (is_signal_ready state.now.ixl signal && is_at_known_stop now state.now.ixl signal) }
{
    state.field().is_signal_ready(signal) && state.field().is_at_known_stop(now, signal)
}

/// The first of these sections that is occupied.
fn first_occupied(state: &State, sections: &[usize]) -> Option<usize>
    ensures { result ≡ first_where (is_occupied state.now.sited.table state.now.ixl) sections.now }
{
    for section in sections {
        if is_occupied(state, *section) {
            return Some(*section);
        }
    }
    None
}

/// The first of these points that isn't there.
fn first_wanting(state: &State, needs: &[Need]) -> Option<Need>
    ensures { result ≡ first_where (is_point_wanting state.now.sited.table state.now.ixl) needs.now }
{
    for need in needs {
        if is_point_wanting(state, *need) {
            return Some(*need);
        }
    }
    None
}

/// The first of these sections of which nothing is known.
fn first_unknown(state: &State, sections: &[usize]) -> Option<usize>
    ensures { result ≡ first_where (is_unknown state.now.sited.table state.now.ixl) sections.now }
{
    for section in sections {
        if is_unknown(state, *section) {
            return Some(*section);
        }
    }
    None
}

/// Why a route that isn't set can't be set now.
fn locking_refusal(state: &State, now: Millis, number: usize) -> Option<Refusal>
    requires there { number < length state.now.sited.table.rows }
    requires free { AtRoute state.now number (λ row route. is_set route.phase ≡ false) }
    ensures { AtRoute state.now number (λ row route. result ≡ locking_refusal now state.now.sited.table state.now.ixl number row) }
{
    let row = &state.table().rows()[number];
    if let Some(blocking) = state.blocking(number) {
        return Some(Refusal::Conflict(RouteId(blocking)));
    }
    if let Some(section) = first_occupied(state, row.sections()) {
        return Some(Refusal::NotClear(SectionId(section)));
    }
    if let Some(need) = first_wanting(state, row.needs()) {
        return Some(Refusal::PointUnavailable(PointId(need.point())));
    }
    if !is_signal_there(state, now, row.entry()) {
        return Some(Refusal::SignalUnavailable);
    }
    match first_unknown(state, row.sections()) {
        Some(_) => Some(Refusal::DetectionDown),
        None => None,
    }
}

/// Why a route isn't set that could be locked: a thing that it would use counts as closed.
fn closed_refusal(state: &State, number: usize) -> Option<Refusal>
    requires { number < length state.now.sited.table.rows }
    ensures { AtRoute state.now number (λ row route. result ≡ closed_refusal state.now.sited.table state.now.ixl number row) }
{
    match first_closed(state, number) {
        Some(thing) => Some(Refusal::Closed(thing)),
        None => None,
    }
}

/// Why each command for a route of the table or for a point is refused, whatever it is.
pub(crate) fn refusal_of_any(state: &State, now: Millis) -> Option<Refusal>
    ensures { result ≡ refused_where (is_holding now state.now.ixl) refusals.Holding (refused_where (not state.now.ixl.resumed) refusals.NotResumed None) }
{
    if is_holding(state, now) {
        return Some(Refusal::Holding);
    }
    if !state.is_resumed() {
        return Some(Refusal::NotResumed);
    }
    None
}

/// Why a request is refused.
fn request_refusal(state: &State, now: Millis, number: usize) -> Option<Refusal>
    ensures { result ≡ request_refusal now state.now.sited.table state.now.ixl number (slice_get state.now.sited.table.rows number) (slice_get state.now.ixl.routes number) }
{
    if number >= state.table().rows().len() {
        return Some(Refusal::UnknownRoute);
    }
    if let Some(cause) = refusal_of_any(state, now) {
        return Some(cause);
    }
    if state.route(number).is_set() {
        return Some(Refusal::AlreadySet);
    }
    match locking_refusal(state, now, number) {
        Some(cause) => Some(cause),
        None => closed_refusal(state, number),
    }
}

/// Why a cancel is refused.
fn cancel_refusal(state: &State, now: Millis, number: usize) -> Option<Refusal>
    ensures { result ≡ cancel_refusal now state.now.ixl (slice_get state.now.ixl.routes number) }
{
    if number >= state.table().rows().len() {
        return Some(Refusal::UnknownRoute);
    }
    if let Some(cause) = refusal_of_any(state, now) {
        return Some(cause);
    }
    if !state.route(number).is_set() {
        return Some(Refusal::NotSet);
    }
    None
}

/// Why it isn't told to resume.
fn resume_refusal(state: &State, now: Millis) -> Option<Refusal>
    ensures { result ≡ refused_where (is_holding now state.now.ixl) refusals.Holding None }
{
    if is_holding(state, now) {
        Some(Refusal::Holding)
    } else {
        None
    }
}

/// Why a command is refused, if it is: the first cause in their order.
pub(crate) fn refusal(state: &State, now: Millis, command: Command) -> Option<Refusal>
    ensures { result ≡ refusal now state.now.sited.table command state.now.ixl }
{
    match command {
        Command::Request(route) => request_refusal(state, now, route.0),
        Command::Cancel(route) => cancel_refusal(state, now, route.0),
        Command::Resume => resume_refusal(state, now),
        Command::Release(route) => release_refusal(state, now, route.0),
        Command::Move(point, side) => move_refusal(state, now, point, side),
        Command::Close(named) => close_refusal(state, named),
        Command::Open(named) => open_refusal(state, named),
    }
}
