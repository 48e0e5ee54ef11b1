//! Events are applied.

ghost use Rattle.std.specs.Prelude.{◌≡◌, ◌≤◌, ◌<◌, ◌+◌, ◌⊎◌, Err, IfErr, IfOk, IsTrue, None, OnErr, OnOk, Some};
ghost use Rattle.simulator_spec.specs.simulator_event.refused.Refused.TheVariants.{OutOfMemory};
ghost use Rattle.simulator_spec.specs.Happens.{happens, is_restart, reply_to};
ghost use Rattle.simulator_spec.specs.Refusals.{refusal};
ghost use Rattle.simulator.specs.inside.Parts.{IsWhole, site_of, seen, steps_of, table_of};

use crate::clocked_interlocking::MOST_SENT;
use crate::parts::Parts;
use simulator_spec::{Event, Refused, Reply};
use std::alloc::AllocError;

impl Parts {
    /// How many steps have their memory already.
    pub(crate) fn room(&self) -> usize
        ensures { result ≡ steps_of self.now }
    {
        self.field.network.room() / MOST_SENT
    }

    /// Makes memory for at least so many steps; nothing else changes.
    #[tactic(auto, unfolding(crate::proofs::Below::world_of))]
    pub(crate) fn reserve(&mut self, steps: usize) -> Result<(), AllocError>
        requires { IsWhole self.old }
        ensures room { OnOk result (steps ≤ steps_of self.new) }
        ensures more { steps_of self.old ≤ steps_of self.new }
        ensures same { seen self.new ≡ seen self.old }
        ensures sited { self.new.interlocking.sited ≡ self.old.interlocking.sited }
        ensures whole { IsWhole self.new }
    {
        if steps <= self.room() {
            return Ok(());
        }
        match steps.checked_mul(MOST_SENT) {
            Some(datagrams) => self.field.network.reserve(datagrams),
            // So many have no memory anywhere.
            None => Err(AllocError),
        }
    }

    /// Applies an event, or says why it can't happen.
    #[tactic(auto, unfolding(crate::proofs::Below::reply_to, crate::proofs::Below::world_of))]
    pub(crate) fn apply(&mut self, event: &Event) -> Result<Reply, Refused>
        requires { IsWhole self.old }
        ensures step { OnOk result (seen self.new ≡ happens (site_of self.old) (table_of self.old) event.now (seen self.old)) }
        ensures allowed { OnOk result (refusal (site_of self.old) event.now (seen self.old) ≡ None) }
        ensures reply { IfOk result (λ reply. reply ≡ reply_to (site_of self.old) (table_of self.old) event.now (seen self.old)) }
        ensures refused { IfErr result (λ why. (refusal (site_of self.old) event.now (seen self.old) ≡ Some why) ⊎ ((why ≡ OutOfMemory) × (refusal (site_of self.old) event.now (seen self.old) ≡ None))) }
        ensures memory { result ≡ Err OutOfMemory → 0 < steps_of self.old → IsTrue (is_restart event.now) }
        ensures same { OnErr result (seen self.new ≡ seen self.old) }
        ensures sited { self.new.interlocking.sited ≡ self.old.interlocking.sited }
        ensures room { steps_of self.old ≤ steps_of self.new + 1 }
        ensures kept { OnErr result (steps_of self.old ≤ steps_of self.new) }
        ensures whole { IsWhole self.new }
    {
        let found = self.tested(event)?;
        if self.room() == 0 && self.reserve(1).is_err() {
            return Err(Refused::OutOfMemory);
        }
        let before = self.field.network.len();
        match self.happen(event, found) {
            Ok(answer) => {
                let added = self.field.network.len() - before;
                Ok(Reply { answer, added })
            }
            Err(_) => Err(Refused::OutOfMemory),
        }
    }
}
