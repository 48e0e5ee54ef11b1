//! What tells the controllers apart: what their equipment has to do, and what its contacts tell.

use node_drive::node_lines::FieldReport;
use node_drive::{Fault, LineMeaning, Order};
use simulator_spec::object_host::{Controller, Sense};

/// The contacts of the equipment of a field object, with what they told last.
pub trait Contacts: Drop {
    ghost use Rattle.std.specs.Prelude.{◌≡◌, List, ℕ, Option, Result};
    ghost use Rattle.simulator_spec.specs.Happens.{coming};
    ghost use Rattle.simulator_spec.specs.object_host.declared.input.Input.{Input};
    ghost use Rattle.simulator_spec.specs.object_host.declared.input.Input.TheVariants as inputs;
    ghost use Rattle.node_drive.specs.replay_words.declared.fault.Fault.{Fault as LineFault};
    ghost use Rattle.node_drive.specs.node_lines.declared.order.Order.{Order as FieldOrder};
    ghost use Rattle.node_drive.specs.node_lines.declared.report.FieldReport.{FieldReport as Report};
    ghost use Rattle.node_drive.specs.Kinds.{Meaning};
    ghost use Rattle.node_kinds.specs.inside.ControllerSteps.{sense_left, unanswered};

    /// The field object.
    type Object: Controller;

    /// What is kept of what they told.
    ghost Kept: { Type 0 };

    ghost kept: { Self → Kept };

    /// What the equipment has to do.
    ghost order: { Self.Object → Option FieldOrder };

    /// What a line of the equipment tells.
    ghost meaning: { Kept → Result Report LineFault → Meaning Input };

    /// What is kept once something has come.
    ghost after: { Input → Kept → Kept };

    /// What the equipment of an object has to do, if it does something.
    fn order_of(&self, object: &Self::Object) -> Option<Order>
        ensures { result ≡ order object.now };

    /// What a line of the equipment tells, and what of it has to come.
    fn told(&self, report: Result<FieldReport, Fault>) -> (LineMeaning, Option<Sense>)
        ensures { unanswered result.0 (sense_left result.1) ≡ meaning (kept self.now) report };

    /// A contact has changed.
    fn note(&mut self, sense: Sense)
        ensures { kept self.new ≡ after (inputs.Sense sense) (kept self.old) };

    /// Nothing else changes them.
    ghost ticked: { (k : Kept) → after inputs.Tick k ≡ k };

    ghost heard: { (bytes : List ℕ) (k : Kept) → after (coming bytes) k ≡ k };
}
