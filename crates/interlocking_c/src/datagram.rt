//! The next datagram, into room that C provides, and the node to which it goes.

ghost use Rattle.std.specs.Prelude.{◌≡◌, ◌≢◌, ◌++◌, ℕ, List, None, Some, drop, length};
ghost use Rattle.embedded_ixl.specs.Embedded.{EmbeddedIxlState, leaving_to};
ghost use Rattle.interlocking_c.specs.Answers.{after_next, answer_to_next, answer_to_next_in};
ghost use Rattle.interlocking_c.specs.Kept.{held_after, held_interlocking};

use crate::answers::{LONGEST, NOT_STARTED, OK, ROOM, number_of};
use crate::handle::Handle;
use crate::held::Held;

impl Held {
    /// Takes the oldest datagram of the last step into the front of `out`, and tells how many bytes it has and the node to which it
    /// goes: 0 bytes where none is left, or where they have waited for 500 ms.
    fn next(&mut self, now: u64, out: &mut [u8], size: &mut usize, to: &mut usize) -> u32
        ensures answer { result ≡ answer_to_next (length out.old) now self.old.embedded }
        ensures does { self.new.embedded ≡ after_next (length out.old) now self.old.embedded }
        ensures given { result ≡ 0 → (leaves : ℕ × List ℕ) → leaving_to now self.old.embedded ≡ Some leaves → (to.new ≡ leaves.0) × (size.new ≡ length leaves.1) × (out.new ≡ leaves.1 ++ drop (length leaves.1) out.old) }
        ensures none { result ≡ 0 → leaving_to now self.old.embedded ≡ None → (to.new ≡ to.old) × (size.new ≡ 0) × (out.new ≡ out.old) }
        ensures same { result ≢ 0 → (to.new ≡ to.old) × (size.new ≡ size.old) × (out.new ≡ out.old) }
    {
        if out.len() < LONGEST {
            return ROOM;
        }
        match self.embedded.next(now) {
            Ok(Some(leaves)) => {
                *to = leaves.to.0;
                *size = leaves.datagram.len();
                let (front, _) = out.split_at_mut(leaves.datagram.len());
                front.copy_from_slice(&leaves.datagram);
                OK
            }
            Ok(None) => {
                *size = 0;
                OK
            }
            Err(refusal) => number_of(Err(refusal)),
        }
    }
}

/// Takes the next datagram of the last step into the front of `out`, and tells its size and the node to which it goes: size 0 where none
/// is left.
#[unsafe(no_mangle)]
pub extern "C" fn zendurai_interlocking_next(
    handle: &mut Handle,
    now: u64,
    out: &mut [u8],
    size: &mut usize,
    to: &mut usize,
) -> u32
    ensures answer { result ≡ answer_to_next_in (length out.old) now (held_interlocking handle.old.held) }
    ensures does { handle.new.held ≡ held_after (after_next (length out.old) now) handle.old.held }
    ensures given { result ≡ 0 → (it : EmbeddedIxlState) (leaves : ℕ × List ℕ) → held_interlocking handle.old.held ≡ Some it → leaving_to now it ≡ Some leaves → (to.new ≡ leaves.0) × (size.new ≡ length leaves.1) × (out.new ≡ leaves.1 ++ drop (length leaves.1) out.old) }
    ensures none { result ≡ 0 → (it : EmbeddedIxlState) → held_interlocking handle.old.held ≡ Some it → leaving_to now it ≡ None → (to.new ≡ to.old) × (size.new ≡ 0) × (out.new ≡ out.old) }
    ensures same { result ≢ 0 → (to.new ≡ to.old) × (size.new ≡ size.old) × (out.new ≡ out.old) }
{
    if !handle.is_started() {
        return NOT_STARTED;
    }
    handle.get().next(now, out, size, to)
}
