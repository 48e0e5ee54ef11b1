//! What the items that the server takes say to its lamp.

ghost use Rattle.std.specs.Prelude.{◌≡◌};
ghost use Rattle.simulator_pair.specs.Pair.{indicated_by, indicated_after, unless_closed};

use rasta_core::Link;
use rasta_pdu::Item;
use signal_ctl::{Aspect, Lamp};

/// The item that indicates proceed, and the one that indicates stop; others leave the lamp as it is.
const PROCEED: [u8; 1] = [0x04];

const STOP: [u8; 1] = [0x01];

/// Indicates what an item says.
fn indicate(lamp: &mut Lamp, item: &Item)
    ensures { lamp.new ≡ record lamp.old { indicated = indicated_by item.now lamp.old.indicated } }
{
    let bytes = item.bytes();
    if bytes == PROCEED.as_slice() {
        lamp.indicate(Aspect::Proceed);
    } else if bytes == STOP.as_slice() {
        lamp.indicate(Aspect::Stop);
    }
}

/// Indicates what items say, one after the other.
pub(crate) fn indicate_all(lamp: &mut Lamp, items: &[Item])
    ensures { lamp.new ≡ record lamp.old { indicated = indicated_after items.now lamp.old.indicated } }
{
    for item in items {
        indicate(lamp, item);
    }
}

/// The lamp is told of a loss where the link is closed.
pub(crate) fn lose_if_closed(lamp: &mut Lamp, link: &Link)
    ensures { lamp.new ≡ record lamp.old { indicated = unless_closed link.now lamp.old.indicated } }
{
    if !link.is_open() {
        lamp.lost();
    }
}
