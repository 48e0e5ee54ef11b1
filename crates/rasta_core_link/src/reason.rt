//! Why a connection is closed.

ghost use Rattle.std.specs.Prelude.{◌≡◌};

/// Why a connection is closed; the numbers are those that a disconnection request carries.
#[derive(Clone, Copy, Debug)]
pub enum Reason {
    /// The user wished it.
    User = 0,
    /// A PDU came that the state doesn't allow.
    State = 1,
    /// The sequence numbers of the connection are used up.
    Sequence = 2,
    /// The partner was silent for too long.
    Time = 3,
    /// The partner has another version of the protocol.
    Version = 4,
    /// The partner has another window, or the own one is full.
    Window = 5,
}

impl Reason {
    ghost use Rattle.rasta_core_link.specs.PdusHandedOut.{reason_number, is_told};

    /// Its number in a disconnection request, 0 to 5.
    pub fn number(self) -> u16
        ensures { result ≡ reason_number self }
    {
        self as u16
    }

    /// Whether a close for this reason is told to the partner.
    pub(crate) fn is_told(self) -> bool
        ensures { result ≡ is_told self }
    {
        !matches!(self, Reason::Time)
    }
}
