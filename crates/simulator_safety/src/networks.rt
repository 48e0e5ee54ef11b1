//! The network of a world from one event to the next.

ghost use Rattle.std.specs.Prelude.{◌≡◌, ℕ, List, None};
ghost use Rattle.simulator_link_laws.specs.layout.Entries.{Site};
ghost use Rattle.simulator_link_laws.specs.layout.Once.{Once};
ghost use Rattle.simulator_link_laws.specs.layout.Station.{IsStation};
ghost use Rattle.simulator_link_laws.specs.rasta_core.Links.{Links, run_links};
ghost use Rattle.simulator_link_laws.specs.ixl_spec.Table.{Table};
ghost use Rattle.simulator_link_laws.specs.simulator_event.declared.event.Event.{Event};
ghost use Rattle.simulator_link_laws.specs.simulator_event.declared.event.Event.TheVariants.{Time};
ghost use Rattle.simulator_link_laws.specs.Events.{events_of};
ghost use Rattle.simulator_link_laws.specs.simulator_spec.Happens.{happens};
ghost use Rattle.simulator_link_laws.specs.simulator_spec.Refusals.{refusal};
ghost use Rattle.simulator_link_laws.specs.simulator_spec.State.{WorldState};
ghost use Rattle.simulator_link_laws.specs.simulator_spec.TrueClocks.{MayCome};
ghost use Rattle.simulator_link_laws.specs.TrueLinks.{AreTrueLinks};
ghost use Rattle.simulator_safety.specs.Represents.{IsNetworkOf};

use simulator_link_laws::simulator_move_laws::{
    lawful_worlds_pass_time, lawful_worlds_stay_lawful,
};
use simulator_link_laws::{
    events_are_those_of_the_links, layouts_name_their_links, true_clocks_keep_links,
};

/// The network of a world after an event is what the event is to its links makes of it.
pub fn networks_follow_their_worlds()
    ensures { (site : Site) (table : Table) (event : Event) (world : WorldState) (network : Links) → IsStation site → Once site → IsNetworkOf site world network
        → refusal site event world ≡ None → IsNetworkOf site (happens site table event world) (run_links (events_of site table event world) network) }
{
    events_are_those_of_the_links();
    layouts_name_their_links();
    lawful_worlds_stay_lawful();
}

/// So it is where time passes, whatever the clocks do in it, if some links of the world keep time then.
pub fn networks_pass_time()
    ensures { (site : Site) (table : Table) (elapsed : ℕ) (clocks : List ℕ) (world : WorldState) (network other : Links) → IsNetworkOf site world network
        → MayCome site (Time elapsed clocks) world → AreTrueLinks site (happens site table (Time elapsed clocks) world) other
        → IsNetworkOf site (happens site table (Time elapsed clocks) world) (run_links (events_of site table (Time elapsed clocks) world) network) }
{
    lawful_worlds_pass_time();
    true_clocks_keep_links();
}
