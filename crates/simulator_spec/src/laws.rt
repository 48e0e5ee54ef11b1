//! What holds of every world.

ghost use Rattle.std.specs.Prelude.{◌≡◌, ◌≤◌, ℕ, true, Some};
ghost use Rattle.ixl_spec.specs.layout.Entries.{Site};
ghost use Rattle.simulator_event.specs.declared.event.Event.TheVariants.{Tick};
ghost use Rattle.simulator_event.specs.refused.Refused.TheVariants.{NoSuchNode};
ghost use Rattle.ixl_spec.specs.Table.{Table};
ghost use Rattle.ixl_spec.specs.View.{is_holding};
ghost use Rattle.ixl_spec.specs.rasta_core.Links.{begun};
ghost use Rattle.simulator_spec.specs.First.{Beginning, IsOutsetOf, Outset, at_rest, first_world, new_ixl, world_at};
ghost use Rattle.simulator_spec.specs.Links.{AreLinksOf, names_at, starts_at_zero};
ghost use Rattle.simulator_spec.specs.Nodes.{nodes};
ghost use Rattle.simulator_spec.specs.Refusals.{refusal};
ghost use Rattle.simulator_spec.specs.State.{WorldState};

use ixl_spec::new_interlockings_hold;

/// A node that isn't there can't be ticked.
#[tactic(auto, unfolding(crate::specs::Refusals::refusal))]
pub fn an_event_at_no_node_is_refused()
    ensures { (site : Site) (node : ℕ) (world : WorldState) → nodes site ≤ node → refusal site (Tick (record { 0 = node })) world ≡ Some NoSuchNode }
{}

/// An interlocking that was just made holds.
pub fn a_restarted_interlocking_holds()
    ensures { (site : Site) (table : Table) (begins : Beginning) → begins.clock ≤ 9000000000000 → is_holding begins.clock (new_ixl site table begins) ≡ true }
{
    new_interlockings_hold();
}

/// A station as it lies has the links of its layout at their beginning.
#[tactic(auto, using(crate::proofs::FirstLinks::first_is_links))]
pub fn a_station_begins_its_links()
    ensures { (site : Site) (table : Table) (outset : Outset) → IsOutsetOf site outset → AreLinksOf site (world_at site table outset) (begun (names_at site) starts_at_zero) }
{}

/// The first world is that of a station in which every point stands left and every section is clear.
#[tactic(auto, using(crate::proofs::FirstLinks::rest_is_outset), unfolding(crate::specs::First::first_world))]
pub fn the_first_world_is_at_rest()
    ensures outset { (site : Site) → IsOutsetOf site (at_rest site) }
    ensures world { (site : Site) (table : Table) → first_world site table ≡ world_at site table (at_rest site) }
{}
