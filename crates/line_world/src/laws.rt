//! What is promised of a line as it runs, after any list of events that can happen to it.

ghost use Rattle.std.specs.Prelude.{◌≡◌, List, true};
ghost use Rattle.line_laws.specs.declared.words.Side.{Side};
ghost use Rattle.line_world.specs.Events.{LineEvent};
ghost use Rattle.line_world.specs.Happens.{CanHappen, after_all, first_run};
ghost use Rattle.line_world.specs.Names.{AreLineNames};
ghost use Rattle.line_world.specs.Promise.{Contacts, HasToken, IsLocked, WasClear, tells_clear};
ghost use Rattle.line_world.specs.State.{end_at};
ghost use Rattle.line_world.specs.declared.names.LineNames.{LineNames};
ghost use Rattle.line_world.specs.inside.Laws.{Laws};

use line_end::{unlinked_end_is_silent, what_has_changed_is_written};
use line_laws::invariant_is_kept;
use line_telegram::written_is_read;
use rasta_core::{
    alone_after_quiet, calls_at_one_clock, connection_begins, every_event_keeps_order,
    every_event_keeps_time, every_run_keeps_order, every_run_keeps_time, links_are_settled,
    nothing_before_a_connection, one_connection, opening_is_new, order_is_safe,
    outside_until_it_enters, starts_in_time, what_is_taken,
};
use rasta_pdu::intact_is_tested;

/// What is so of the link, of telegrams and of the ends of a line.
fn laws_below()
    ensures { Laws }
{
    starts_in_time();
    every_event_keeps_time();
    every_event_keeps_order();
    every_run_keeps_time();
    every_run_keeps_order();
    links_are_settled();
    order_is_safe();
    calls_at_one_clock();
    outside_until_it_enters();
    what_is_taken();
    connection_begins();
    opening_is_new();
    one_connection();
    nothing_before_a_connection();
    alone_after_quiet();
    written_is_read();
    intact_is_tested();
    invariant_is_kept();
    unlinked_end_is_silent();
    what_has_changed_is_written();
}

/// Not both ends have the line's token in their files.
pub fn at_most_one_token()
    ensures { (names : LineNames) (events : List LineEvent) → AreLineNames names → CanHappen names events (first_run names) → let run = after_all names events (first_run names)
        in HasToken run.first → HasToken run.second → ⊥ }
{
    laws_below();
}

/// Not both locks lie at the right by the files of their ends.
pub fn both_locks_are_never_right()
    ensures { (names : LineNames) (events : List LineEvent) → AreLineNames names → CanHappen names events (first_run names) → let run = after_all names events (first_run names)
        in IsLocked run.first → IsLocked run.second → ⊥ }
{
    laws_below();
}

/// Clear was clear: while an end tells its station that the line is clear, there was a moment at which no contact of either end
/// was occupied, and since that moment this end has had the token, and no contact of its own was occupied.
pub fn clear_was_clear()
    ensures { (names : LineNames) (side : Side) (contacts : Contacts) (events : List LineEvent) → AreLineNames names → CanHappen names events (first_run names)
        → tells_clear (end_at side (after_all names events (first_run names))) ≡ true → WasClear names side (record { run = first_run names; contacts = contacts }) events }
{
    laws_below();
}
