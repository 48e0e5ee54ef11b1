//! Computed runs of small stations.

ghost use Rattle.std.specs.Prelude.{◌∷◌, []};
ghost use Rattle.train_machine.specs.Moves.{FreesCancelled, Passes, Resumes};
ghost use Rattle.train_machine.specs.Runs.{authorised_beside, authorised_driven, authorised_unclear, cancel_and_run, cancelled, cancelled_at_once, cancelled_since, cancelled_unclear, change_untold, detector_starved, disobeyed, follow_early, follow_late, followed, following, freed_unseen, lamp_starved, let_in_before, let_in_early, let_in_stale, met_in_joined, met_in_throat, moved_held, moved_unclear, opposing, passed_again, resumed_early, resumed_stale, set_held, set_unclear, told_falsely, told_out_of_order, turned_back, unwithdrawn, restarted, went_on_resumed, went_on, followed_soon, let_in_soon, resumed_soon};
ghost use Rattle.train_machine.specs.Stations.{joined, line, small};
ghost use Rattle.train_machine.specs.Track.{IsSound, Left, Right};
ghost use Rattle.train_machine.specs.Wrong.{Allows, Breaks, Leads, Refuses, authorise_clear, authorise_side, authorise_undriven, cancel_clear, cancel_early, cancel_ended, cancel_since, dark, each_change, free_seen, fresh, headway, in_order, inlet_empty, inlet_unclaimed, inlet_unheld, let_in, let_in_claimed, let_in_passed, move_clear, move_unheld, obey, own_headway, set_clear, set_unheld, stands, stood, stood_there, truth, withdraws_nothing, without, headway_short, let_in_short, stood_short};

/// Trains do run: on a station that is sound two follow one another through a route, and one
/// goes on over a restart of the interlocking. The theorem doesn't speak of nothing.
pub fn trains_follow_one_another()
    ensures line { IsSound line }
    ensures small { IsSound small }
    ensures joined { IsSound joined }
    ensures follow { Leads line followed (4 ∷ []) (2 ∷ 0 ∷ []) }
    ensures restart { Leads line restarted (4 ∷ 2 ∷ []) (0 ∷ []) }
{}

/// Each premise on the traffic is needed: with one of them left out, a run of a small station breaks the promise. *Headway* counts a
/// train's own pass too (*own*). *Let in* counts a train that has passed its signal already (*stale*), and *stood* one that has left the
/// station (*stood_gone*).
pub fn each_premise_on_trains_is_needed()
    ensures obey { Breaks small ((0 ∷ []) ∷ (7 ∷ []) ∷ [] ∷ []) Left (without obey) disobeyed }
    ensures headway { Breaks line ((0 ∷ []) ∷ [] ∷ [] ∷ []) Left (without headway) following }
    ensures own { Breaks line ((0 ∷ []) ∷ (5 ∷ []) ∷ [] ∷ []) Left (without own_headway) passed_again }
    ensures inlet { Breaks line ([] ∷ [] ∷ [] ∷ []) Left (without inlet_empty) met_in_throat }
    ensures inlet_joined { Breaks joined ([] ∷ [] ∷ [] ∷ []) Left (without inlet_unclaimed) met_in_joined }
    ensures inlet_held { Breaks line ((2 ∷ []) ∷ [] ∷ [] ∷ []) Left (without inlet_unheld) opposing }
    ensures let_in { Breaks line ((3 ∷ []) ∷ [] ∷ [] ∷ []) Left (without let_in) let_in_early }
    ensures stale { Breaks small ([] ∷ (7 ∷ []) ∷ [] ∷ []) Right (without let_in_passed) let_in_stale }
    ensures let_in_before { Breaks joined ([] ∷ (7 ∷ []) ∷ [] ∷ []) Left (without let_in_claimed) let_in_before }
    ensures stood { Breaks small ((7 ∷ []) ∷ [] ∷ [] ∷ []) Left (without stood) resumed_early }
    ensures stood_gone { Breaks small ((7 ∷ []) ∷ (9 ∷ []) ∷ [] ∷ []) Left (without (stood_there small)) resumed_stale }
    ensures stands { Breaks small ((7 ∷ []) ∷ [] ∷ [] ∷ []) Left (without stands) went_on_resumed }
    ensures turn { Breaks small ((7 ∷ []) ∷ [] ∷ [] ∷ []) Left (without stands) turned_back }
{}

/// So is what the links give: a lamp goes dark, reports are fresh, in order and true, and no change is skipped in a connection.
pub fn what_links_give_is_needed()
    ensures dark { Breaks line ((5 ∷ []) ∷ [] ∷ [] ∷ []) Left (without dark) lamp_starved }
    ensures fresh { Breaks line ((0 ∷ []) ∷ [] ∷ [] ∷ []) Left (without fresh) detector_starved }
    ensures order { Breaks line ((0 ∷ []) ∷ (5 ∷ []) ∷ [] ∷ []) Left (without in_order) told_out_of_order }
    ensures truth { Breaks line ((0 ∷ []) ∷ (5 ∷ []) ∷ [] ∷ []) Left (without truth) told_falsely }
    ensures change { Breaks small ((7 ∷ []) ∷ (9 ∷ []) ∷ [] ∷ []) Left (without each_change) change_untold }
{}

/// So is each rule of the interlocking. A cancelled route waits for report_time after the end of its authority (*cancel*, one millisecond
/// less; *ended*), and after its sections were told clear last (*since*).
pub fn each_rule_is_needed()
    ensures set_clear { Breaks line ([] ∷ (2 ∷ []) ∷ [] ∷ []) Left (without set_clear) set_unclear }
    ensures set_unheld { Breaks line ((0 ∷ []) ∷ (5 ∷ []) ∷ [] ∷ []) Left (without set_unheld) set_held }
    ensures authorise_clear { Breaks line ((5 ∷ []) ∷ [] ∷ [] ∷ []) Left (without authorise_clear) authorised_unclear }
    ensures authorise_side { Breaks small ((7 ∷ []) ∷ [] ∷ [] ∷ []) Right (without (authorise_side Left)) authorised_beside }
    ensures authorise_undriven { Breaks small ((7 ∷ []) ∷ [] ∷ [] ∷ []) Left (without authorise_undriven) authorised_driven }
    ensures seen { Breaks small ((7 ∷ []) ∷ [] ∷ [] ∷ []) Left (without free_seen) freed_unseen }
    ensures cancel { Breaks small ((7 ∷ []) ∷ [] ∷ [] ∷ []) Left (without cancel_early) cancel_and_run }
    ensures ended { Breaks small ((7 ∷ []) ∷ [] ∷ [] ∷ []) Left (without cancel_ended) cancelled_at_once }
    ensures since { Breaks small ((7 ∷ []) ∷ (9 ∷ []) ∷ [] ∷ []) Left (without cancel_since) cancelled_since }
    ensures cancel_clear { Breaks small ((0 ∷ []) ∷ [] ∷ [] ∷ []) Left (without cancel_clear) cancelled_unclear }
    ensures move_unheld { Breaks small ((0 ∷ []) ∷ [] ∷ [] ∷ []) Left (without move_unheld) moved_held }
    ensures move_clear { Breaks small ((0 ∷ []) ∷ [] ∷ [] ∷ []) Left (without move_clear) moved_unclear }
    ensures withdraw { Breaks line ((0 ∷ []) ∷ [] ∷ [] ∷ []) Left withdraws_nothing unwithdrawn }
{}

/// Bounds are exact. After a train that passed at reading 0, a step at 1799 doesn't count (*early*). After one at 1800 and true time
/// 1802 the next train may pass from 3604 on (*late*), and then the lamp is dark (*dark*). A route whose authority ended at 1 is freed
/// at 1801 (*freed*, *held*), and after a train that went on at 1 the interlocking is resumed at 1801 (*resumed*, *hold*). One
/// millisecond less of headway, of let in or of stood breaks the promise.
pub fn bounds_are_exact()
    ensures early { Refuses line ((0 ∷ []) ∷ [] ∷ [] ∷ []) Left follow_early (Passes 1 0 2) }
    ensures late { Refuses line ((0 ∷ []) ∷ [] ∷ [] ∷ []) Left (follow_late 3603) (Passes 1 0 2) }
    ensures dark { Refuses line ((0 ∷ []) ∷ [] ∷ [] ∷ []) Left (follow_late 3604) (Passes 1 0 2) }
    ensures held { Refuses small ((7 ∷ []) ∷ [] ∷ [] ∷ []) Left (cancelled 1800) (FreesCancelled 2) }
    ensures freed { Allows small ((7 ∷ []) ∷ [] ∷ [] ∷ []) Left (cancelled 1801) (FreesCancelled 2) }
    ensures hold { Refuses small ((7 ∷ []) ∷ [] ∷ [] ∷ []) Left (went_on 1800) Resumes }
    ensures headway { Breaks line ((5 ∷ []) ∷ [] ∷ [] ∷ []) Left (without headway_short) followed_soon }
    ensures let_in { Breaks line ((3 ∷ []) ∷ [] ∷ [] ∷ []) Left (without let_in_short) let_in_soon }
    ensures stood { Breaks small ((7 ∷ []) ∷ [] ∷ [] ∷ []) Left (without stood_short) resumed_soon }
    ensures resumed { Allows small ((7 ∷ []) ∷ [] ∷ [] ∷ []) Left (went_on 1801) Resumes }
{}
