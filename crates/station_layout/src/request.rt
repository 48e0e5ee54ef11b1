//! The route that a plan is to show.

ghost use Rattle.std.specs.Prelude.{IfErr, IfOk, option_copied};
ghost use Rattle.station_layout.specs.PlanText.{IsAsked, IsNoRoute};

use crate::named_entries::route_called;
use control_table::{Checked, RouteId};
use replay_words::Fault;

/// The route of a name, where one is asked for; fault 2 where no route has this name.
pub(crate) fn route_asked(table: &Checked, name: Option<&str>) -> Result<Option<RouteId>, Fault>
    ensures asked { IfOk result (IsAsked table.now (option_copied name.entry)) }
    ensures fault { IfErr result (λ _. IsNoRoute table.now (option_copied name.entry)) }
{
    match name {
        Some(name) => Ok(Some(route_called(table.layout(), name)?)),
        None => Ok(None),
    }
}
