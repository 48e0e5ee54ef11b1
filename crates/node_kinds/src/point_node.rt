//! The controller of a point.

ghost use Rattle.std.specs.Prelude.{◌≡◌, ◌<◌, [], length, slice_get, IfOk, Some};
ghost use Rattle.simulator_spec.specs.First.{new_point};
ghost use Rattle.simulator_spec.specs.layout.declared.entries.Point.{Point as Entry};
ghost use Rattle.simulator_spec.specs.object_host.declared.input.Input.TheVariants as inputs;
ghost use Rattle.simulator_spec.specs.object_host.declared.sense.Sense.TheVariants as sense;
ghost use Rattle.node_drive.specs.Kinds.{Comes};
ghost use Rattle.node_kinds.specs.Controllers.{drive_order, is_same_position, unless_again};
ghost use Rattle.node_kinds.specs.inside.ControllerSteps.{sense_left};
ghost use Rattle.node_kinds.specs.Made.{made_at};
ghost use Rattle.node_kinds.specs.inside.ControllerNodes.{point_now};

use crate::contacts::Contacts;
use crate::controller_node::ControllerNode;
use crate::controller_steps::SteppedHost;
use node_drive::node_lines::FieldReport;
use node_drive::{Fault, LineMeaning, Order};
use simulator_spec::object_host::Sense;
use simulator_spec::point_ctl::{Drive, Point};
use simulator_spec::{Checked, Millis, PointId, Position, Start};
use std::alloc::{AllocError, Global};

/// Where the contacts of a point told last that it lies.
#[derive(Clone, Copy)]
pub struct PointContacts {
    last: Position,
}

/// The controller of a point, in a station of this layout.
pub type PointNode<'a> = ControllerNode<'a, PointContacts>;

impl<'a> PointNode<'a> {
    /// The controller of a point, which lies so. It is made at this reading of its clock, and numbers its PDUs from
    /// `first_sequence_number` on.
    pub fn new(
        alloc: Global,
        table: &'a Checked,
        point: PointId,
        position: Position,
        reading: Millis,
        first_sequence_number: u32,
    ) -> Result<PointNode<'a>, AllocError>
        requires { point.0 < length table.now.points }
        ensures reached { IfOk result (λ node. (point_now node).reached ≡ reading) }
        ensures made { IfOk result (λ node. (entry : Entry) → slice_get table.now.points point.0 ≡ Some entry
            → point_now node ≡ made_at reading (record { site = table.now; host = new_point table.now (record { clock = reading; first = first_sequence_number }) position entry; contacts = position })) }
    {
        let layout = table.layout();
        let entry = &layout.points()[point.0];
        let stepped = SteppedHost::new(
            alloc,
            table,
            entry.name,
            entry.id,
            Point::new(position),
            Start {
                first_sequence_number,
                now: reading,
            },
        )?;
        Ok(ControllerNode {
            layout,
            stepped,
            contacts: PointContacts { last: position },
            left: None,
        })
    }
}

impl Contacts for PointContacts {
    ghost use Rattle.std.specs.Prelude.{Some, refl};
    ghost use Rattle.simulator_spec.specs.point_ctl.Drive.{drive_of};
    ghost use Rattle.simulator_spec.specs.sci_telegram.declared.message.Position.{Position as Lies};
    ghost use Rattle.node_kinds.specs.Controllers.{drive_order, position_after, told_to_point};

    type Object = Point;

    ghost Kept = { Lies };

    ghost kept = { λ contacts. contacts.last };

    ghost order = { λ point. Some (drive_order (drive_of point)) };

    ghost meaning = { told_to_point };

    ghost after = { position_after };

    fn order_of(&self, point: &Point) -> Option<Order> {
        Some(drive_order(point.drive()))
    }

    fn told(&self, report: Result<FieldReport, Fault>) -> (LineMeaning, Option<Sense>) {
        match report {
            Ok(FieldReport::Done { number }) => (LineMeaning::InForce(number), None),
            Ok(FieldReport::Section { .. }) => (LineMeaning::Faulty(Fault::Name), None),
            Ok(FieldReport::Point(position)) => {
                (LineMeaning::Comes, unless_again(self.last, position))
            }
            Err(fault) => (LineMeaning::Faulty(fault), None),
        }
    }

    fn note(&mut self, sense: Sense) {
        if let Sense::Position(position) = sense {
            self.last = position;
        }
    }

    ghost ticked = { λ kept. refl };

    ghost heard = { λ bytes kept. refl };
}

/// The order of a drive.
fn drive_order(drive: Option<Drive>) -> Order
    ensures { result ≡ drive_order drive }
{
    match drive {
        Some(drive) => Order::Drive {
            side: drive.side,
            until: drive.until,
        },
        None => Order::DriveNone,
    }
}

/// A position, unless it is the one that was told last.
fn unless_again(last: Position, position: Position) -> Option<Sense>
    ensures { Comes [] (sense_left result) ≡ unless_again (is_same_position last position) (inputs.Sense (sense.Position position)) }
{
    if last == position {
        None
    } else {
        Some(Sense::Position(position))
    }
}
