//! What the line of an event says is this event again.

ghost use Rattle.std.specs.Prelude.{◌≡◌, List, ℕ, Ok, Some};
ghost use Rattle.replay_words.specs.Cut.{words};
ghost use Rattle.ixl_spec.specs.layout.Entries.{Site};
ghost use Rattle.ixl_spec.specs.layout.Once.{Once};
ghost use Rattle.ixl_spec.specs.layout.Station.{IsStation};
ghost use Rattle.replay_lines.specs.Events.{event as event_said};
ghost use Rattle.replay_lines.specs.Written.{event_line};
ghost use Rattle.replay_lines.specs.ReadAgain.{IsOfValues, event_read};
ghost use Rattle.simulator_event.specs.declared.event.Event.{Event};

use crate::{names_are_read_again, names_are_words};
use ixl_spec::a_name_names_what_has_it;
use replay_words::{
    a_name_and_its_number_are_parted_again, a_number_is_read_again, bytes_are_read_again,
    joined_words_are_read_again,
};

/// The line of an event is read as this event; a command on a route or a point that the layout lacks is read as one on that
/// after its last, and a close or an open of anything else that it lacks as one of the route after its last.
pub fn written_events_are_read_again()
    ensures { (site : Site) → Once site → IsStation site → (event : Event) → IsOfValues event → (line : List ℕ) → event_line site event ≡ Some line → event_said site (words line) ≡ Ok (event_read site event) }
{
    a_name_names_what_has_it();
    bytes_are_read_again();
    a_name_and_its_number_are_parted_again();
    a_number_is_read_again();
    joined_words_are_read_again();
    names_are_read_again();
    names_are_words();
}
