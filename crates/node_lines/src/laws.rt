//! What is written in a line is read again.

ghost use Rattle.std.specs.Prelude.{◌≡◌, ◌≢◌, None, Ok, Some};
ghost use Rattle.replay_words.specs.Cut.{words};
ghost use Rattle.replay_lines.specs.ixl_spec.layout.Entries.{Site};
ghost use Rattle.replay_lines.specs.ixl_spec.layout.Once.{Once};
ghost use Rattle.replay_lines.specs.ixl_spec.layout.Station.{IsStation};
ghost use Rattle.node_lines.specs.Commands.{command_said, command_text, operator_read};
ghost use Rattle.replay_lines.specs.ixl_spec.layout.declared.ids.SignalId.{SignalId};
ghost use Rattle.replay_lines.specs.ixl_spec.sci_telegram.declared.message.Aspect.TheVariants.{Stop};
ghost use Rattle.node_lines.specs.Known.{signal_text};
ghost use Rattle.node_lines.specs.Orders.{order_line_said, order_text};
ghost use Rattle.node_lines.specs.ReadAgain.{IsOrderLine, IsReport};
ghost use Rattle.node_lines.specs.Reports.{report_said, report_text};
ghost use Rattle.node_lines.specs.Worked.{Worked};
ghost use Rattle.node_lines.specs.declared.operator_line.Authority.{Authority};
ghost use Rattle.node_lines.specs.declared.operator_command.OperatorCommand.{OperatorCommand as Asked};
ghost use Rattle.node_lines.specs.declared.order.OrderLine.{OrderLine as Line};
ghost use Rattle.node_lines.specs.declared.report.FieldReport.{FieldReport as Told};

use replay_lines::{names_are_read_again, names_are_words, written_events_are_read_again};
use replay_words::{a_number_is_read_again, joined_words_are_read_again};

/// The line of an order is read as this order.
pub fn orders_are_read_again()
    ensures { (line : Line) → IsOrderLine line → order_line_said (words (order_text line)) ≡ Ok line }
{
    a_number_is_read_again();
    joined_words_are_read_again();
}

/// The line of what field equipment tells is read as this.
pub fn reports_are_read_again()
    ensures { (site : Site) → Once site → IsStation site → (report : Told) → IsReport site report → report_said site (words (report_text site report)) ≡ Ok report }
{
    a_number_is_read_again();
    joined_words_are_read_again();
    names_are_read_again();
    names_are_words();
}

/// The line of a command is read as this command. One on a route or a point that the layout lacks is read as one on that after
/// its last, a close or an open of anything else that it lacks as one of the route after its last, and a cancel of a route that
/// is called `all` as one of each route.
pub fn commands_are_read_again()
    ensures { (site : Site) → Once site → IsStation site → (asked : Asked) → command_said site (words (command_text site asked)) ≡ Ok (operator_read site asked) }
{
    joined_words_are_read_again();
    names_are_read_again();
    names_are_words();
    written_events_are_read_again();
}

/// A signal without authority is told otherwise than one that has authority for an aspect other than stop, also where its route
/// is called `-`.
#[tactic(auto, using(crate::proofs::AuthorityTold::told_apart))]
pub fn authority_is_told_apart()
    ensures { (site : Site) (signal : SignalId) (authority : Authority) → authority.aspect ≢ Stop → signal_text site signal (Some authority) ≢ signal_text site signal None }
{}

/// Lines worked by hand.
pub fn lines_are_as_worked_by_hand()
    ensures { (site : Site) → Worked site }
{}
