//! The fifth rule: the points of a route are moved.

ghost use Rattle.std.specs.Prelude.{◌≡◌, ◌<◌, ◌≤◌, ◌+◌, ◌&&◌, not, length};
ghost use Rattle.ixl_state.specs.rasta_core.Outbox.{HasRoomFor};
ghost use Rattle.ixl_state.specs.ixl_spec.StepSoFar.{over};
ghost use Rattle.ixl_state.specs.ixl_spec.Rules.{count, is_move_due, is_waiting, moving, moving_one};
ghost use Rattle.ixl_state.specs.ixl_spec.View.{all_known};
ghost use Rattle.ixl_state.specs.State.{AllAt, AtRoute, Goes};

use crate::field_known::{
    are_points_known, is_over_clear, is_point_available, is_point_known, is_point_unmoved, row_of,
};
use crate::operations::lies_in_closed;
use ixl_state::ixl_table::Need;
use ixl_state::{Millis, Outbox, Phase, State};

/// Whether a route is set, isn't cancelled and had no authority.
fn waits(state: &State, number: usize) -> bool
    requires { number < length state.now.sited.table.rows }
    ensures { AtRoute state.now number (λ row route. result ≡ (is_waiting route.phase && not route.cancelled)) }
{
    let route = state.route(number);
    match route.phase() {
        Phase::Waiting => !route.is_cancelled(),
        _ => false,
    }
}

/// Whether a point is to be moved for a route.
fn is_move_due(state: &State, number: usize, need: Need) -> bool
    requires { number < length state.now.sited.table.rows }
    ensures { AtRoute state.now number (λ row route. result ≡ is_move_due state.now.sited.table state.now.ixl number route need) }
{
    let point = need.point();
    waits(state, number)
        && is_point_available(state, point)
        && !is_point_known(state, point, need.side())
        && is_over_clear(state, point)
        && !state.is_held_with_authority(point)
        && is_point_unmoved(state, point, number)
        && !lies_in_closed(state, point)
}

/// A point is moved for a route where that is due.
fn move_point(state: &mut State, now: Millis, number: usize, need: Need, outbox: &mut Outbox)
    requires there { number < length state.old.sited.table.rows }
    requires clock { AllAt now state.old }
    requires room { HasRoomFor 26 outbox.old }
    ensures { Goes now 2 (moving_one now state.old.sited.table number need) state.old outbox.old state.new outbox.new }
{
    state.keeps_route(number);
    if is_move_due(state, number, need) {
        state.give_move(now, need.point(), need.side(), outbox);
    }
}

/// A route requires at most as many points as a station has.
fn required_points_are_few(state: &State, number: usize)
    requires { number < length state.now.sited.table.rows }
    ensures { AtRoute state.now number (λ row route. length row.needs ≤ 32) }
{
    state.table().names_what_is_there();
}

/// The points of a route are moved, one after another. Where all of them are known at their sides there is none to move.
fn move_points(state: &mut State, now: Millis, number: usize, outbox: &mut Outbox)
    requires there { number < length state.old.sited.table.rows }
    requires clock { AllAt now state.old }
    requires room { HasRoomFor (24 + 64) outbox.old }
    ensures { Goes now 64 (moving now state.old.sited.table number) state.old outbox.old state.new outbox.new }
{
    state.keeps_route(number);
    required_points_are_few(state, number);
    if !waits(state, number) || are_points_known(state, number) {
        return;
    }
    for place in 0..row_of(state, number).needs().len() {
        let need = row_of(state, number).needs()[place];
        move_point(state, now, number, need, outbox);
    }
}

/// All routes in turn.
pub(crate) fn move_points_of_routes(state: &mut State, now: Millis, outbox: &mut Outbox)
    requires clock { AllAt now state.old }
    requires room { HasRoomFor (24 + 4096) outbox.old }
    ensures { Goes now 4096 (over (moving now state.old.sited.table) (count state.old.sited.table)) state.old outbox.old state.new outbox.new }
{
    for number in 0..state.table().rows().len() {
        move_points(state, now, number, outbox);
    }
}
