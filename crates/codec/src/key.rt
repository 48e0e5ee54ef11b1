//! The key of a network.

ghost use Rattle.std.specs.Prelude.{◌≡◌};
ghost use Rattle.codec.specs.Pdu.{key_of};

use rasta_pdu::Key;

/// The four registers from which MD4 starts.
#[repr(C)]
#[derive(Clone, Copy, Debug)]
pub struct KeyRegisters {
    pub a: u32,
    pub b: u32,
    pub c: u32,
    pub d: u32,
}

/// The key of these registers.
pub(crate) fn key_of(registers: &KeyRegisters) -> Key
    ensures { result ≡ key_of registers.now }
{
    Key([registers.a, registers.b, registers.c, registers.d])
}
