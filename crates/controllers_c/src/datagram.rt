//! The next datagram, into room that C provides.

ghost use Rattle.std.specs.Prelude.{◌≡◌, ◌≢◌, ◌++◌, ℕ, List, None, Some, drop, length};
ghost use Rattle.embedded_host.specs.Embedded.{leaving};
ghost use Rattle.controllers_c.specs.Answers.{after_next, answer_to_next};

use crate::answers::{LONGEST, OK, ROOM, number_of};
use embedded_host::Embedded;
use object_host::Controller;

/// Takes the oldest datagram of the last step into the front of `out`, and tells how many bytes it has: 0 where none is left, or
/// where they have waited for 500 ms.
pub(crate) fn next<C: Controller>(
    it: &mut Embedded<C>,
    now: u64,
    out: &mut [u8],
    size: &mut usize,
) -> u32
    ensures answer { result ≡ answer_to_next (length out.old) now it.old }
    ensures does { it.new ≡ after_next C.behaviour (length out.old) now it.old }
    ensures given { result ≡ 0 → (datagram : List ℕ) → leaving now it.old ≡ Some datagram → (size.new ≡ length datagram) × (out.new ≡ datagram ++ drop (length datagram) out.old) }
    ensures none { result ≡ 0 → leaving now it.old ≡ None → (size.new ≡ 0) × (out.new ≡ out.old) }
    ensures same { result ≢ 0 → (size.new ≡ size.old) × (out.new ≡ out.old) }
{
    if out.len() < LONGEST {
        return ROOM;
    }
    match it.next(now) {
        Ok(Some(datagram)) => {
            *size = datagram.len();
            let (front, _) = out.split_at_mut(datagram.len());
            front.copy_from_slice(&datagram);
            OK
        }
        Ok(None) => {
            *size = 0;
            OK
        }
        Err(refusal) => number_of(Err(refusal)),
    }
}
