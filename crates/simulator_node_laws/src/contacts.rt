//! What a contact leads to that tells late, or tells again what it told last.

ghost use Rattle.std.specs.Prelude.{◌≡◌, ◌<◌, ℕ, suc, not, length, List, None, Some, slice_get};
ghost use Rattle.simulator_spec.specs.sci_telegram.declared.message.Occupancy.{Occupancy};
ghost use Rattle.simulator_spec.specs.sci_telegram.declared.message.Position.{Position};
ghost use Rattle.simulator_spec.specs.layout.Entries.{DetectorEntry, Site};
ghost use Rattle.simulator_spec.specs.layout.declared.entries.Point.{Point as PointEntry};
ghost use Rattle.simulator_spec.specs.layout.declared.ids.SectionId.{SectionId};
ghost use Rattle.simulator_spec.specs.object_host.Step.{host_step};
ghost use Rattle.simulator_spec.specs.object_host.declared.sense.Sense.TheVariants as sense;
ghost use Rattle.simulator_spec.specs.point_ctl.Controlled.{point_behaviour};
ghost use Rattle.simulator_spec.specs.point_ctl.Drive.{drives};
ghost use Rattle.simulator_spec.specs.rasta_core.Ends.{reading_of};
ghost use Rattle.simulator_spec.specs.rasta_core.Parameters.{connection_limit};
ghost use Rattle.simulator_spec.specs.tds_ctl.Controlled.{detection_behaviour};
ghost use Rattle.simulator_spec.specs.tds_ctl.History.{occupancies};
ghost use Rattle.simulator_spec.specs.ixl_spec.Table.{Table};
ghost use Rattle.simulator_spec.specs.simulator_event.declared.event.Event.{Event};
ghost use Rattle.simulator_spec.specs.simulator_event.declared.event.Event.TheVariants as event;
ghost use Rattle.simulator_spec.specs.simulator_event.layout.declared.ids.NodeId.{NodeId};
ghost use Rattle.simulator_spec.specs.simulator_event.refused.Refused.TheVariants.{NotDriven};
ghost use Rattle.simulator_spec.specs.simulator_event.declared.snapshot.Snapshot.{Snapshot};
ghost use Rattle.simulator_spec.specs.First.{IsOutsetOf, Outset, world_at};
ghost use Rattle.simulator_spec.specs.Happens.{coming, happens};
ghost use Rattle.simulator_spec.specs.Nodes.{detector_link, nodes, point_link};
ghost use Rattle.simulator_spec.specs.Refusals.{may_reach, refusal, refused_where};
ghost use Rattle.simulator_spec.specs.Run.{after_all};
ghost use Rattle.simulator_spec.specs.Seen.{IsSnapshotOf};
ghost use Rattle.simulator_spec.specs.State.{WorldState};
ghost use Rattle.simulator_node_laws.specs.Contacts.{IsAsNoise, detector_now, noise, point_now};
ghost use Rattle.simulator_node_laws.specs.Said.{detector_life};
ghost use Rattle.simulator_node_laws.specs.Shown.{point_life};
ghost use Rattle.simulator_node_laws.specs.Told.{ToDetector, ToPoint, told};

use object_host_laws::point_makes_a_step;
use simulator_spec::object_host::{step_is_told_to_the_object, steps_keep_a_host};
use simulator_spec::point_ctl::Point;
use simulator_spec::tds_ctl::Detection;

/// A contact of a section may tell at any time and as often as it likes, and no snapshot changes by it.
pub fn contacts_of_sections_change_no_snapshot()
    ensures allowed { (site : Site) (section : SectionId) (occupancy : Occupancy) (world : WorldState) → section.0 < length site.sections → refusal site (event.Occupy section occupancy) world ≡ None }
    ensures seen { (site : Site) (table : Table) (section : SectionId) (occupancy : Occupancy) (world : WorldState) (seen : Snapshot) → IsSnapshotOf table world seen
        → IsSnapshotOf table (happens site table (event.Occupy section occupancy) world) seen }
{}

/// A contact of a point may tell exactly while the point is driven by its life alone: that it lies at no end position, or at the
/// side to which it is driven.
pub fn a_point_may_be_told_while_it_is_driven()
    ensures { (site : Site) (table : Table) (outset : Outset) → IsOutsetOf site outset → (events : List Event) (place : ℕ) (entry : PointEntry) → slice_get site.points place ≡ Some entry → (position : Position)
        → refusal site (event.Reach (record { 0 = place }) position) (after_all site table events (world_at site table outset))
        ≡ refused_where (not (may_reach (drives (reading_of (point_life site table outset events place).clock) (point_now site entry (point_life site table outset events place)).object) position)) NotDriven None }
{}

/// A point senses what its contacts told last (*senses*). Where they tell it again, its controller does what it does as noise
/// comes (*again*), and it is driven as before (*drives*). So it is at every reading of its clock, while it has sent fewer PDUs
/// in its connection than close it. At that limit each call of a link closes it: noise is such a call, and a contact that
/// changes nothing makes none.
pub fn a_point_may_be_told_again()
    ensures senses { (site : Site) (table : Table) (outset : Outset) (events : List Event) (place : ℕ) (entry : PointEntry)
        → (point_now site entry (point_life site table outset events place)).object.sensed ≡ (point_life site table outset events place).contacts }
    ensures again { (site : Site) (table : Table) (outset : Outset) (events : List Event) (place : ℕ) (entry : PointEntry) (now : ℕ) → (point_now site entry (point_life site table outset events place)).link.sent < connection_limit
        → IsAsNoise point_behaviour now (sense.Position (point_life site table outset events place).contacts) (point_now site entry (point_life site table outset events place)) }
    ensures drives { (site : Site) (table : Table) (outset : Outset) (events : List Event) (place : ℕ) (entry : PointEntry) (now : ℕ) → (point_now site entry (point_life site table outset events place)).link.sent < connection_limit
        → drives now (host_step point_behaviour now (coming noise) (point_now site entry (point_life site table outset events place))).host.object
        ≡ drives now (point_now site entry (point_life site table outset events place)).object }
{
    steps_keep_a_host::<Point>();
    point_makes_a_step();
}

/// A detector senses of each of its sections what its contact told last (*senses*). Where one tells it again, the controller
/// does what it does as noise comes (*again*), while it has sent fewer PDUs in its connection than close it, as above.
pub fn a_detector_may_be_told_again()
    ensures senses { (site : Site) (table : Table) (outset : Outset) (events : List Event) (place : ℕ) (entry : DetectorEntry) → slice_get site.detectors place ≡ Some entry
        → occupancies (detector_now site entry (detector_life site table outset events place)).object ≡ (detector_life site table outset events place).contacts }
    ensures again { (site : Site) (table : Table) (outset : Outset) (events : List Event) (place : ℕ) (entry : DetectorEntry) → slice_get site.detectors place ≡ Some entry
        → (section : ℕ) (occupancy : Occupancy) → slice_get (detector_life site table outset events place).contacts section ≡ Some occupancy
        → (now : ℕ) → (detector_now site entry (detector_life site table outset events place)).link.sent < connection_limit
        → IsAsNoise detection_behaviour now (sense.Section section occupancy) (detector_now site entry (detector_life site table outset events place)) }
{
    steps_keep_a_host::<Detection>();
    step_is_told_to_the_object::<Detection>();
}

/// Noise may come to any node at any time (*allowed*). It is told to this node alone (*points*, *detectors*), and moves no
/// point and no train (*unmoved*).
pub fn noise_may_always_come()
    ensures allowed { (site : Site) (node : NodeId) (world : WorldState) → node.0 < nodes site → refusal site (event.Deliver node noise) world ≡ None }
    ensures points { (site : Site) (table : Table) (place : ℕ) → place < length site.points → told site table (event.Deliver (record { 0 = suc (point_link site place) }) noise) ≡ ToPoint place (coming noise) }
    ensures detectors { (site : Site) (table : Table) (place : ℕ) → place < length site.detectors → told site table (event.Deliver (record { 0 = suc (detector_link site place) }) noise) ≡ ToDetector place (coming noise) }
    ensures unmoved { (site : Site) (table : Table) (node : NodeId) (world : WorldState)
        → ((happens site table (event.Deliver node noise) world).positions ≡ world.positions) × ((happens site table (event.Deliver node noise) world).occupancies ≡ world.occupancies) }
{}
