//! The field equipment of a controller.

ghost use Rattle.std.specs.Prelude.{◌≡◌};
ghost use Rattle.node_kinds.specs.Made.{equipment_of};
ghost use Rattle.node_kinds.specs.Openings.{own_sections, rest_order};

use node_drive::Order;
use simulator_spec::SectionId;

/// The field equipment of a controller.
#[derive(Clone, Copy)]
pub enum Equipment<'a> {
    /// The lamp of a signal.
    Lamp,
    /// The motor of a point, with its contacts.
    Motor,
    /// The contacts of a detector's own sections, in its own order.
    Sections(&'a [SectionId]),
}

/// The sections of which it tells.
pub(crate) fn own_sections<'a>(equipment: Equipment<'a>) -> &'a [SectionId]
    ensures { result.now ≡ own_sections (equipment_of equipment.entry) }
{
    match equipment {
        Equipment::Sections(own) => own,
        Equipment::Lamp | Equipment::Motor => &[],
    }
}

/// The order by which it rests, if it does something.
pub(crate) fn rest_order(equipment: Equipment<'_>) -> Option<Order>
    ensures { result ≡ rest_order (equipment_of equipment.entry) }
{
    match equipment {
        Equipment::Lamp => Some(Order::ShowStop),
        Equipment::Motor => Some(Order::DriveNone),
        Equipment::Sections(_) => None,
    }
}
