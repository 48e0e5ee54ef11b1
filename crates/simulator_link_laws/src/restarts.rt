//! Nodes are made anew.

ghost use Rattle.std.specs.Prelude.{◌≡◌, ℕ, None};
ghost use Rattle.simulator_spec.specs.layout.Entries.{Site};
ghost use Rattle.simulator_spec.specs.rasta_core.EachLink.{AreTimely};
ghost use Rattle.simulator_spec.specs.rasta_core.Links.{Links};
ghost use Rattle.simulator_spec.specs.simulator_event.declared.event.Event.TheVariants.{Restart};
ghost use Rattle.simulator_spec.specs.simulator_event.layout.declared.ids.NodeId.{NodeId};
ghost use Rattle.simulator_spec.specs.ixl_spec.Table.{Table};
ghost use Rattle.simulator_spec.specs.Happens.{happens};
ghost use Rattle.simulator_spec.specs.Links.{AreLinksOf, names_at};
ghost use Rattle.simulator_spec.specs.Nodes.{links};
ghost use Rattle.simulator_spec.specs.State.{WorldState};
ghost use Rattle.simulator_link_laws.specs.Follows.{Follows};
ghost use Rattle.simulator_link_laws.specs.Whole.{IsWhole};

use rasta_core::{a_node_restarts, each_link_sees_its_events, links_are_settled, links_keep_time};

/// A node of a world that is made anew is one of its links: the end of its own link, or the interlocking's end of each.
pub fn restarts_are_those_of_the_links()
    ensures { (site : Site) (table : Table) (node : NodeId) (clock first : ℕ) (world : WorldState) (before : Links) → IsWhole site world
        → AreTimely (links site) (names_at site) before → AreLinksOf site world before → Follows site (happens site table (Restart node clock first) world) before }
{
    a_node_restarts();
    each_link_sees_its_events();
    links_are_settled();
    links_keep_time();
}
