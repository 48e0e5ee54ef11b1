//! What C sets a controller up with.

ghost use Rattle.std.specs.Prelude.{◌≡◌, ◌↔◌, IsSome, IfSome};
ghost use Rattle.sci_telegram.specs.Names.{IsName};
ghost use Rattle.controllers_c.specs.Setups.{key_of, parties_of};

use object_host::Parties;
use rasta_pdu::Key;
use sci_telegram::Name;

/// Who a controller and its partner are, and the key of their network.
#[repr(C)]
#[derive(Clone, Copy)]
pub struct Setup {
    /// The identities of the controller and of its interlocking.
    pub own: u32,
    pub partner: u32,
    /// The registers from which MD4 starts.
    pub key_a: u32,
    pub key_b: u32,
    pub key_c: u32,
    pub key_d: u32,
    pub first_sequence_number: u32,
    /// Of the telegrams: 1, or 2 with the aspect slow.
    pub version: u8,
}

/// The key of a network.
fn key_of(setup: &Setup) -> Key
    ensures { result ≡ key_of setup.now }
{
    Key([setup.key_a, setup.key_b, setup.key_c, setup.key_d])
}

/// A controller and its interlocking, where both names are ones.
pub(crate) fn parties_of(setup: &Setup, own_name: &[u8], peer_name: &[u8]) -> Option<Parties>
    ensures named { IsSome result ↔ (IsName own_name.now × IsName peer_name.now) }
    ensures parties { IfSome result (λ parties. parties ≡ parties_of setup.now own_name.now peer_name.now) }
{
    let own_name = Name::of(own_name)?;
    let peer_name = Name::of(peer_name)?;
    Some(Parties {
        own: setup.own,
        partner: setup.partner,
        own_name,
        peer_name,
        key: key_of(setup),
    })
}
