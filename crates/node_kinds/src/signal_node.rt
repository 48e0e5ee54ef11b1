//! The controller of a signal.

ghost use Rattle.std.specs.Prelude.{◌≡◌, ◌<◌, length, slice_get, IfOk, Some};
ghost use Rattle.simulator_spec.specs.First.{new_signal};
ghost use Rattle.simulator_spec.specs.layout.declared.entries.Signal.{Signal as Entry};
ghost use Rattle.node_kinds.specs.Controllers.{lamp_order};
ghost use Rattle.node_kinds.specs.Made.{made_at};
ghost use Rattle.node_kinds.specs.inside.ControllerNodes.{signal_now};

use crate::contacts::Contacts;
use crate::controller_node::ControllerNode;
use crate::controller_steps::SteppedHost;
use node_drive::node_lines::FieldReport;
use node_drive::{Fault, LineMeaning, Order};
use simulator_spec::object_host::Sense;
use simulator_spec::signal_ctl::Signal;
use simulator_spec::{Aspect, Checked, Millis, SignalId, Start};
use std::alloc::{AllocError, Global};

/// A signal has no contacts.
#[derive(Clone, Copy)]
pub struct NoContacts;

/// The controller of a signal, in a station of this layout.
pub type SignalNode<'a> = ControllerNode<'a, NoContacts>;

impl<'a> SignalNode<'a> {
    /// The controller of a signal, which was told nothing yet. It is made at this reading of its clock, and numbers
    /// its PDUs from `first_sequence_number` on.
    pub fn new(
        alloc: Global,
        table: &'a Checked,
        signal: SignalId,
        reading: Millis,
        first_sequence_number: u32,
    ) -> Result<SignalNode<'a>, AllocError>
        requires { signal.0 < length table.now.signals }
        ensures reached { IfOk result (λ node. (signal_now node).reached ≡ reading) }
        ensures made { IfOk result (λ node. (entry : Entry) → slice_get table.now.signals signal.0 ≡ Some entry
            → signal_now node ≡ made_at reading (record { site = table.now; host = new_signal table.now (record { clock = reading; first = first_sequence_number }) entry; contacts = tt })) }
    {
        let layout = table.layout();
        let entry = &layout.signals()[signal.0];
        let stepped = SteppedHost::new(
            alloc,
            table,
            entry.name,
            entry.id,
            Signal::new(),
            Start {
                first_sequence_number,
                now: reading,
            },
        )?;
        Ok(ControllerNode {
            layout,
            stepped,
            contacts: NoContacts,
            left: None,
        })
    }
}

impl Contacts for NoContacts {
    ghost use Rattle.std.specs.Prelude.{Some, refl};
    ghost use Rattle.node_kinds.specs.Controllers.{lamp_order, told_to_signal};

    type Object = Signal;

    ghost Kept = { Unit {0} };

    ghost kept = { λ contacts. tt };

    ghost order = { λ signal. Some (lamp_order signal.lamp) };

    ghost meaning = { λ kept report. told_to_signal report };

    ghost after = { λ input kept. kept };

    fn order_of(&self, signal: &Signal) -> Option<Order> {
        Some(lamp_order(signal.indicated(), signal.until()))
    }

    fn told(&self, report: Result<FieldReport, Fault>) -> (LineMeaning, Option<Sense>) {
        let meaning = match report {
            Ok(FieldReport::Done { number }) => LineMeaning::InForce(number),
            Ok(FieldReport::Section { .. }) => LineMeaning::Faulty(Fault::Name),
            Ok(FieldReport::Point(_)) => LineMeaning::Faulty(Fault::Words),
            Err(fault) => LineMeaning::Faulty(fault),
        };
        (meaning, None)
    }

    fn note(&mut self, _sense: Sense) {}

    ghost ticked = { λ kept. refl };

    ghost heard = { λ bytes kept. refl };
}

/// The order of a lamp.
fn lamp_order(indicated: Aspect, until: Millis) -> Order
    ensures { result ≡ lamp_order (record { indicated = indicated; until = until }) }
{
    match indicated {
        Aspect::Stop => Order::ShowStop,
        Aspect::Proceed => Order::ShowProceed { until },
        Aspect::Slow => Order::ShowSlow { until },
    }
}
