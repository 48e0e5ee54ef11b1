//! What a signal's lamp has to show.

ghost use Rattle.std.specs.Prelude.{◌≡◌};
ghost use Rattle.controllers_c.specs.Signals.{aspect_number, lamp_of};

use sci_telegram::Aspect;
use signal_ctl::Signal;

/// What a lamp has to show until a reading of the controller's clock, from which it shows stop.
#[repr(C)]
#[derive(Clone, Copy)]
pub struct LampOrder {
    /// 0 stop, 1 proceed, 2 slow.
    pub aspect: u32,
    pub until: u64,
}

/// The number of an aspect.
fn aspect_number(aspect: Aspect) -> u32
    ensures { result ≡ aspect_number aspect }
{
    match aspect {
        Aspect::Stop => 0,
        Aspect::Proceed => 1,
        Aspect::Slow => 2,
    }
}

/// What a signal shows at a reading, and until when.
pub(crate) fn lamp_of(signal: &Signal, now: u64) -> LampOrder
    ensures { result ≡ lamp_of signal.now now }
{
    LampOrder {
        aspect: aspect_number(signal.shown(now)),
        until: signal.until(),
    }
}
