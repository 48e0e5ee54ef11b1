//! To where a point's motor has to drive, and where the point lies, in the numbers of C: 0 neither side, 1 left, 2 right.

ghost use Rattle.std.specs.Prelude.{◌≡◌};
ghost use Rattle.controllers_c.specs.Points.{contact_of, drive_told, position_of, side_number, until_told};

use object_host::Sense;
use point_ctl::{Drive, Point};
use sci_telegram::{Position, Side};

/// To where a motor has to drive until a reading of the controller's clock, from which it doesn't drive.
#[repr(C)]
#[derive(Clone, Copy)]
pub struct DriveOrder {
    /// 0 it doesn't drive, 1 left, 2 right.
    pub side: u32,
    /// 0 where no drive is under way.
    pub until: u64,
}

/// The number of a side.
fn side_number(side: Option<Side>) -> u32
    ensures { result ≡ side_number side }
{
    match side {
        None => 0,
        Some(Side::Left) => 1,
        Some(Side::Right) => 2,
    }
}

/// When a drive ends.
fn until_told(drive: Option<Drive>) -> u64
    ensures { result ≡ until_told drive }
{
    match drive {
        Some(drive) => drive.until,
        None => 0,
    }
}

/// To where a point is driven at a reading, and until when.
pub(crate) fn drive_told(point: &Point, now: u64) -> DriveOrder
    ensures { result ≡ drive_told point.now now }
{
    DriveOrder {
        side: side_number(point.drives(now)),
        until: until_told(point.drive()),
    }
}

/// The position of a number, if it is that of one.
pub(crate) fn position_of(number: u32) -> Option<Position>
    ensures { result ≡ position_of number }
{
    match number {
        0 => Some(Position::NoEndPosition),
        1 => Some(Position::Left),
        2 => Some(Position::Right),
        _ => None,
    }
}

/// What the contacts of a point tell by a number.
pub(crate) fn contact_of(number: u32) -> Option<Sense>
    ensures { result ≡ contact_of number }
{
    match position_of(number) {
        Some(position) => Some(Sense::Position(position)),
        None => None,
    }
}
