//! Computed runs of a small station.

ghost use Rattle.simulator_machine.specs.Table.{IsSound};
ghost use Rattle.simulator_machine.specs.Run.{right_rules};
ghost use Rattle.simulator_machine.specs.Signal.{Proceed, Stop};
ghost use Rattle.simulator_machine.specs.Small.{LeadsTo, aspect_lost, cleared, drive_lost, held_twice, known_lost, move_lost, point_lost, released, report_lost, set_up_again, shown_lost, signal_lost, silent_lost, small, stop_lost, stopped_lost, withdrawn};
ghost use Rattle.simulator_machine.specs.Wrong.{Breaks, BreaksAt, aspect_kept, authorised_twice, authorises_twice, believed, believes, cleared_loose, cleared_one_way, ended_unconfirmed, ends_hold_early, ends_unconfirmed, forgets_frozen, forgotten, hold_ended_early, keeps_aspect, loose, moved_held, moves_held, one_way, set_at_once, set_blocked, sets_at_once, sets_blocked, sparse};

/// Signals do show other aspects than stop: the theorem doesn't speak of nothing.
pub fn some_runs_show_aspects()
    ensures sound { IsSound small }
    ensures cleared { LeadsTo cleared 0 (Proceed 0) }
    ensures withdrawn { LeadsTo withdrawn 0 Stop }
    ensures released { LeadsTo released 1 (Proceed 0) }
    ensures held { LeadsTo held_twice 0 (Proceed 0) }
    ensures again { LeadsTo set_up_again 0 (Proceed 0) }
{}

/// So they do when the controller of the point or of the signal was made anew, in whatever stage.
pub fn routes_are_cleared_after_restarts()
    ensures move_lost { LeadsTo move_lost 0 (Proceed 0) }
    ensures drive_lost { LeadsTo drive_lost 0 (Proceed 0) }
    ensures report_lost { LeadsTo report_lost 0 (Proceed 0) }
    ensures known_lost { LeadsTo known_lost 0 (Proceed 0) }
    ensures point_lost { LeadsTo point_lost 0 (Proceed 0) }
    ensures silent_lost { LeadsTo silent_lost 0 (Proceed 0) }
    ensures aspect_lost { LeadsTo aspect_lost 0 (Proceed 0) }
    ensures signal_lost { LeadsTo signal_lost 0 Stop }
    ensures shown_lost { LeadsTo shown_lost 0 (Proceed 0) }
    ensures stop_lost { LeadsTo stop_lost 0 (Proceed 0) }
    ensures stopped_lost { LeadsTo stopped_lost 0 (Proceed 0) }
{}

/// Every rule is needed: with one of them changed, a run breaks the promise.
pub fn each_rule_is_needed()
    ensures unconfirmed { Breaks ends_unconfirmed ended_unconfirmed }
    ensures believed { Breaks believes believed }
    ensures sound { IsSound sparse }
    ensures moved { BreaksAt sparse moves_held moved_held }
    ensures twice { Breaks authorises_twice authorised_twice }
    ensures forgotten { Breaks forgets_frozen forgotten }
    ensures early { Breaks ends_hold_early hold_ended_early }
    ensures at_once { Breaks sets_at_once set_at_once }
    ensures blocked { Breaks sets_blocked set_blocked }
    ensures kept { Breaks keeps_aspect aspect_kept }
{}

/// So is each premise on the table.
pub fn each_premise_is_needed()
    ensures both_ways { BreaksAt one_way right_rules cleared_one_way }
    ensures one_entry { BreaksAt loose right_rules cleared_loose }
{}
