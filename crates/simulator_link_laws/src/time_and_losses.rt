//! Time passes, and datagrams are lost.

ghost use Rattle.std.specs.Prelude.{◌≡◌, ℕ, List, None};
ghost use Rattle.simulator_spec.specs.layout.Entries.{Site};
ghost use Rattle.simulator_spec.specs.rasta_core.Links.{Links, without_oldest_of_all};
ghost use Rattle.simulator_spec.specs.simulator_event.declared.event.Event.TheVariants.{Lose, Time};
ghost use Rattle.simulator_spec.specs.ixl_spec.Table.{Table};
ghost use Rattle.simulator_spec.specs.Happens.{happens};
ghost use Rattle.simulator_spec.specs.Links.{AreLinksOf};
ghost use Rattle.simulator_spec.specs.Refusals.{refusal};
ghost use Rattle.simulator_spec.specs.State.{WorldState};
ghost use Rattle.simulator_link_laws.specs.Follows.{Follows};

/// Time that may pass for a world passes for its links, each with the clocks of its ends.
pub fn time_passes_for_the_links()
    ensures { (site : Site) (table : Table) (elapsed : ℕ) (clocks : List ℕ) (world : WorldState) (before : Links) → AreLinksOf site world before
        → refusal site (Time elapsed clocks) world ≡ None → Follows site (happens site table (Time elapsed clocks) world) before }
{}

/// A datagram that a world loses is one that its links lose.
pub fn a_loss_is_one_of_the_links()
    ensures { (site : Site) (table : Table) (bytes : List ℕ) (world : WorldState) (before : Links) → AreLinksOf site world before
        → Follows site (happens site table (Lose bytes) world) before }
{}
