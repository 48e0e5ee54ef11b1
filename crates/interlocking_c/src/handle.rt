//! An interlocking in memory that C provides.

ghost use Rattle.std.specs.Prelude.{◌≡◌, true, false, Option, Some};
ghost use Rattle.std.specs.Borrow.{sem};
ghost use Rattle.std.specs.Coded.{codes};
ghost use Rattle.embedded_ixl.specs.ixl_state.bit_row.Places.{places_code};
ghost use Rattle.interlocking_c.specs.declared.held.Held.{Held};

use crate::held::Held;
use std::marker::Model;

/// An interlocking in memory that C provides: room for one, and the interlocking once it was started.
#[repr(C)]
pub struct Handle {
    at: *mut u8,
    /// 0 before its start, and 1 since.
    state: u32,
    ghost held: { Option Held } by { Prim.hlevel (codes, places_code) },
}

impl Model for Handle {
    ghost use Rattle.interlocking_c.specs.Owned.{lies_or_room};

    ghost also_owns = { λ h. lies_or_room h.state h.at h.held };
}

impl Handle {
    ghost use Rattle.interlocking_c.specs.Lending.{LendsHeld};
    ghost use Rattle.interlocking_c.specs.Owned.{is_started};

    /// Whether an interlocking was started in it.
    pub(crate) fn is_started(&mut self) -> bool
        ensures { (result ≡ is_started self.old.held) × (self.new ≡ self.old) }
    {
        self.state == 1
    }

    /// The interlocking.
    pub(crate) fn get(&mut self) -> &mut Held
        requires { is_started self.old.held ≡ true }
        ensures* writes_back { sem 𝓛 (LendsHeld self.entry result) }
        ensures value { self.old.held ≡ Some result.now }
    {
        unsafe { &mut *self.at.cast::<Held>() }
    }

    /// Puts an interlocking into the room.
    pub(crate) fn put(&mut self, held: Held)
        requires { is_started self.old.held ≡ false }
        ensures { self.new.held ≡ Some held }
    {
        unsafe { std::ptr::write(self.at.cast::<Held>(), held) };
        self.state = 1;
    }
}
