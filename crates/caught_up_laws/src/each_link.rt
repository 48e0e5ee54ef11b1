//! The same of each link of a world.

ghost use Rattle.std.specs.Prelude.{ℕ, ◌<◌, List, ◌++◌};
ghost use Rattle.rasta_core_spec.specs.Names.{Names};
ghost use Rattle.rasta_core_spec.specs.identity.Role.{Role};
ghost use Rattle.rasta_core.specs.Links.{AreLinks, LinksEvent, LinksStart, MayRunLinks, begun};
ghost use Rattle.caught_up_laws.specs.EachLink.{KnowsAllInTimeOn, KnowsAllOn};

use crate::knowledge::who_is_caught_up_knows_all;
use rasta_core::{each_link_sees_its_events, links_keep_time};

/// After every list of events of a world, an end of one of its links that is up and caught up there has taken all that its partner
/// had given 1800 ms of the own clock ago, or before (*by_clock*), and all that it had given 1802 ms of true time ago, or before
/// (*in_time*).
pub fn each_link_knows_all()
    ensures by_clock { (who : Role) (count : ℕ) (names : ℕ → Names) (start : LinksStart) (earlier later : List LinksEvent) → AreLinks count names
        → MayRunLinks count names (earlier ++ later) (begun names start) → (link : ℕ) → link < count → KnowsAllOn who link names start earlier later }
    ensures in_time { (who : Role) (count : ℕ) (names : ℕ → Names) (start : LinksStart) (earlier later : List LinksEvent) → AreLinks count names
        → MayRunLinks count names (earlier ++ later) (begun names start) → (link : ℕ) → link < count → KnowsAllInTimeOn who link names start earlier later }
{
    each_link_sees_its_events();
    links_keep_time();
    who_is_caught_up_knows_all();
}
