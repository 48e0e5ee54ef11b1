//! The lists that events carry.

ghost use Rattle.std.specs.Prelude.{◌≡◌};

use std::marker::Model;

/// Bytes as the network delivers or loses them, whether they are a datagram or not.
#[derive(Debug, Drop)]
pub struct RawDatagram {
    bytes: Vec<u8>,
}

impl Model for RawDatagram {
    ghost use Rattle.std.specs.Prelude.{ℕ, List};

    ghost Value = { List ℕ };

    ghost view = { λ d. d.bytes.items };
}

impl RawDatagram {
    /// These bytes.
    pub fn of(bytes: Vec<u8>) -> RawDatagram
        ensures { result ≡ bytes.items }
    {
        RawDatagram { bytes }
    }

    /// The bytes.
    pub fn as_slice(&self) -> &[u8]
        ensures { result.now ≡ self.now }
    {
        &self.bytes
    }
}

/// How many microseconds the clock of each node goes on, in the order of the nodes.
#[derive(Debug, Drop)]
pub struct ClockSteps {
    steps: Vec<u64>,
}

impl Model for ClockSteps {
    ghost use Rattle.std.specs.Prelude.{ℕ, List};

    ghost Value = { List ℕ };

    ghost view = { λ c. c.steps.items };
}

impl ClockSteps {
    /// These steps.
    pub fn of(steps: Vec<u64>) -> ClockSteps
        ensures { result ≡ steps.items }
    {
        ClockSteps { steps }
    }

    /// The steps.
    pub fn as_slice(&self) -> &[u64]
        ensures { result.now ≡ self.now }
    {
        &self.steps
    }
}
