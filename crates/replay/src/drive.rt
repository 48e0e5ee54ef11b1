//! For how long a point was found driven.

ghost use Rattle.std.specs.Prelude.{◌≡◌};
ghost use Rattle.simulator.specs.simulator_spec.Flow.{next_drive, next_drives, position_of};
ghost use Rattle.replay.specs.World.{driven, played};

use simulator::simulator_spec::FoundDriven;
use simulator::{PointId, Position, Side, World};

/// At the ends of how many rounds one after the other a point is found driven before it comes to lie.
pub(crate) const ROUNDS_DRIVEN: u8 = 50;

/// What is known of a point's drive at the end of a round in which it is found so.
fn next_drive(found: Option<Side>, before: Option<FoundDriven>) -> Option<FoundDriven>
    ensures { result ≡ next_drive found before }
{
    let side = found?;
    match before {
        Some(drive) if drive.side == side => {
            let rounds = if drive.rounds < ROUNDS_DRIVEN {
                drive.rounds + 1
            } else {
                drive.rounds
            };
            Some(FoundDriven { side, rounds })
        }
        _ => Some(FoundDriven { side, rounds: 1 }),
    }
}

/// The side to which a point is driven, if there is such a point.
fn driven(world: &World, point: PointId) -> Option<Side>
    ensures { result ≡ driven (played world.now) point }
{
    if point.0 < world.table().layout().points().len() {
        world.driven(point)
    } else {
        None
    }
}

/// Notes at the end of a round which points are driven.
pub(crate) fn note_drives(world: &World, drives: &mut [Option<FoundDriven>])
    ensures { drives.new ≡ next_drives (driven (played world.now)) 0 drives.old }
{
    for place in 0..drives.len() {
        let found = driven(world, PointId(place));
        drives[place] = next_drive(found, drives[place]);
    }
}

/// Where a point comes to lie that is driven to this side.
pub(crate) fn position_of(side: Side) -> Position
    ensures { result ≡ position_of side }
{
    match side {
        Side::Right => Position::Right,
        Side::Left => Position::Left,
    }
}
