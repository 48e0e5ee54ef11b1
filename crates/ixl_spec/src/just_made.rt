//! What holds of every interlocking that was just made.

ghost use Rattle.std.specs.Prelude.{◌≡◌, ◌≤◌, true};
ghost use Rattle.closings.specs.layout.Entries.{Site};
ghost use Rattle.rasta_core.specs.time.TheConstants.{LATEST_CLOCK};
ghost use Rattle.ixl_spec.specs.Table.{Table};
ghost use Rattle.ixl_spec.specs.View.{is_holding};
ghost use Rattle.ixl_spec.specs.First.{Beginning, new_ixl};

/// An interlocking that was just made holds.
#[tactic(auto, unfolding(crate::specs::First::new_ixl))]
pub fn new_interlockings_hold()
    ensures { (site : Site) (table : Table) (begins : Beginning) → begins.clock ≤ LATEST_CLOCK → is_holding begins.clock (new_ixl site table begins) ≡ true }
{}
