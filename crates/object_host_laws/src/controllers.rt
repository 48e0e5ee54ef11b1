//! What a signal shows, by what its host acted on in the connection.

ghost use Rattle.std.specs.Prelude.{◌≡◌, ℕ, true, false, List, [], Some};
ghost use Rattle.sci_telegram.specs.declared.message.Side.{Side};
ghost use Rattle.rasta_core.specs.State.{is_open};
ghost use Rattle.rasta_core.specs.Clock.{settled};
ghost use Rattle.rasta_core.specs.Ends.{reading_of};
ghost use Rattle.rasta_core.specs.Events.{Start};
ghost use Rattle.rasta_core.specs.Names.{Names};
ghost use Rattle.object_host.specs.Host.{HostState};
ghost use Rattle.object_host.specs.Made.{items_given};
ghost use Rattle.object_host.specs.Step.{host_step};
ghost use Rattle.object_host.specs.declared.input.Input.{Input};
ghost use Rattle.object_host_laws.specs.World.{Event, World, begun, happened, host_of};
ghost use Rattle.signal_ctl.specs.Lamp.{aspect_shown};
ghost use Rattle.signal_ctl.specs.Signal.{SignalState, signal_behaviour};
ghost use Rattle.point_ctl.specs.Controlled.{point_behaviour};
ghost use Rattle.point_ctl.specs.Drive.{PointState, drives};
ghost use Rattle.point_ctl.specs.declared.progress.Progress.TheVariants.{Answered};
ghost use Rattle.object_host_laws.specs.Point.{GivesStanding, IsFound, IsPointStep, IsReported, found_by, is_moving};
ghost use Rattle.object_host_laws.specs.Signal.{IsTold, aspect_due};

use crate::step_takes_and_gives;
use object_host::{step_is_told_to_the_object, steps_keep_a_host};
use point_ctl::Point;
use signal_ctl::{Signal, shows_the_last_aspect_taken};

/// A signal in its host shows an aspect other than stop exactly where this is the last aspect that its host acted on in the
/// connection that it is in, and the controller's clock is below `alive_until` (*shown*). What that stands on holds at the
/// beginning and after every event of two ends of which the host's is settled at its clock (*starts*, *kept*).
pub fn signal_shows_what_was_told()
    ensures starts { (names : Names) (start : Start) (own_name peer_name : List ℕ) (signal : SignalState) (version : ℕ) → IsTold (begun signal_behaviour names start own_name peer_name signal version) }
    ensures kept { (event : Event SignalState) (world : World SignalState) → settled (reading_of world.ends.server.clock) world.ends.server.link ≡ world.ends.server.link
        → IsTold world → IsTold (happened signal_behaviour event world) }
    ensures shown { (world : World SignalState) → IsTold world → aspect_shown world.object.lamp (reading_of world.ends.server.clock) ≡ aspect_due world }
{
    steps_keep_a_host::<Signal>();
    step_is_told_to_the_object::<Signal>();
    step_takes_and_gives::<Signal>();
    shows_the_last_aspect_taken();
}

/// What a step of a host does to its point: where the point stands, which moves wait, when it is driven, and which reports
/// are given.
pub fn point_makes_a_step()
    ensures { (now : ℕ) (input : Input) (host : HostState PointState) → IsPointStep now input host (host_step point_behaviour now input host) }
{
    step_is_told_to_the_object::<Point>();
}

/// A step finds a point as its events have left it: in a connection, as one that has reported there what it was told
/// (*inside*); out of any, as one that has reported nothing and has answered every move (*outside*, *undriven*).
pub fn steps_find_what_was_reported()
    ensures inside { (world : World PointState) → settled (reading_of world.ends.server.clock) world.ends.server.link ≡ world.ends.server.link → IsReported world
        → is_open world.ends.server.link.phase ≡ true → IsFound (reading_of world.ends.server.clock) world.ends.server.given world.told (host_of world) }
    ensures outside { (world : World PointState) → settled (reading_of world.ends.server.clock) world.ends.server.link ≡ world.ends.server.link → IsReported world
        → is_open world.ends.server.link.phase ≡ false → IsFound (reading_of world.ends.server.clock) [] [] (host_of world) }
    ensures undriven { (world : World PointState) → settled (reading_of world.ends.server.clock) world.ends.server.link ≡ world.ends.server.link → IsReported world
        → is_open world.ends.server.link.phase ≡ false → (found_by (reading_of world.ends.server.clock) (host_of world)).progress ≡ Answered }
{
    point_makes_a_step();
}

/// What a point in its host has reported in the connection that it is in: answers of the version, what the initialisation
/// said of it, and one final report for each move that waits for it no longer, in this order (*starts*, *kept*). What a step
/// gives are reports, and a position that they tell is where the point stands then (*standing*). It is driven only in a
/// connection, for the move in progress (*driven*).
pub fn point_reports_its_moves()
    ensures starts { (names : Names) (start : Start) (own_name peer_name : List ℕ) (point : PointState) (version : ℕ) → IsReported (begun point_behaviour names start own_name peer_name point version) }
    ensures kept { (event : Event PointState) (world : World PointState) → settled (reading_of world.ends.server.clock) world.ends.server.link ≡ world.ends.server.link
        → IsReported world → IsReported (happened point_behaviour event world) }
    ensures standing { (now : ℕ) (input : Input) (host : HostState PointState) → GivesStanding (host_step point_behaviour now input host)
        (items_given now (host_step point_behaviour now input host).calls (settled now host.link)) }
    ensures driven { (world : World PointState) → IsReported world → (side : Side) → drives (reading_of world.ends.server.clock) world.object ≡ Some side
        → (is_open world.ends.server.link.phase ≡ true) × (is_moving world.object ≡ true) }
{
    steps_keep_a_host::<Point>();
    step_takes_and_gives::<Point>();
    point_makes_a_step();
}
