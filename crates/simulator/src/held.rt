//! The pairs of signal and route that are held.

ghost use Rattle.std.specs.Prelude.{◌≡◌, ◌≤◌, length};
ghost use Rattle.simulator_spec.specs.Interlocking.{authorities, held_of};

use crate::clocked_interlocking::ClockedInterlocking;
use arrayvec::ArrayVec;
use ixl_state::SignalId;
use simulator_spec::Held;

/// The frozen pairs, as they are lent.
fn copied(frozen: &[Held]) -> ArrayVec<Held, 64>
    requires { length frozen.now ≤ 64 }
    ensures { result.items ≡ frozen.now }
{
    let mut held = ArrayVec::new();
    let _ = held.try_extend_from_slice(frozen);
    held
}

impl ClockedInterlocking {
    /// Each signal with the route that has authority from it.
    fn authorities(&self) -> ArrayVec<Held, 64>
        ensures { result.items ≡ authorities self.now.sited.table self.now.interlocking.ixl 0 (length self.now.interlocking.ixl.known_signals) }
    {
        let mut held = ArrayVec::new();
        for place in 0..self.table().checked().layout().signals().len() {
            let signal = SignalId(place);
            match self.authority(signal) {
                Some(route) => held.push(Held { signal, route }),
                None => {}
            }
        }
        held
    }

    /// The pairs that are held: in the hold the frozen ones, and otherwise each signal with the route that has authority
    /// from it.
    #[tactic(auto, unfolding(crate::proofs::Below::held_of))]
    pub fn held(&self, frozen: &[Held]) -> ArrayVec<Held, 64>
        requires { length frozen.now ≤ 64 }
        ensures { result.items ≡ held_of self.now.sited.table self.now.interlocking frozen.now }
    {
        if self.is_holding() {
            copied(frozen)
        } else {
            self.authorities()
        }
    }
}
