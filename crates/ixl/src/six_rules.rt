//! The six rules, one after another.

ghost use Rattle.std.specs.Prelude.{◌+◌};
ghost use Rattle.ixl_state.specs.rasta_core.Outbox.{HasRoomFor};
ghost use Rattle.ixl_state.specs.ixl_spec.Rules.{ruled};
ghost use Rattle.ixl_state.specs.State.{AllAt, Goes};

use crate::authority_end::end_authorities;
use crate::cancel_rule::free_routes_by_cancel;
use crate::idle_routes::all_rest;
use crate::passage::free_routes_by_passage;
use crate::point_moves::move_points_of_routes;
use crate::proceed_rule::give_authority;
use crate::withdrawal::withdraw_routes;
use ixl_state::{Millis, Outbox, State};

/// The six rules, each for all routes in table order, and then the next. Two datagrams are handed out at most for each of
/// 64 stops, for each of 32 moves of 64 routes, and for each of 64 aspects.
pub fn apply_rules(state: &mut State, now: Millis, outbox: &mut Outbox)
    requires clock { AllAt now state.old }
    requires room { HasRoomFor (24 + 4352) outbox.old }
    ensures { Goes now 4352 (ruled now state.old.sited.table) state.old outbox.old state.new outbox.new }
{
    withdraw_routes(state, now, outbox);
    // The other rules leave routes that rest as they are.
    if all_rest(state) {
        return;
    }
    end_authorities(state, now);
    free_routes_by_passage(state);
    free_routes_by_cancel(state, now);
    move_points_of_routes(state, now, outbox);
    give_authority(state, now, outbox);
}
