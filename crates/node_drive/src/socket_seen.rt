//! What a process knows of the age of what waits in its socket.

ghost use Rattle.std.specs.Prelude.{◌≡◌, [], ◌∷◌, None, Some};
ghost use Rattle.node_drive.specs.Seen.{is_heard, nothing_seen};

use crate::budget::LONGEST_IN_SOCKET;

/// What a process saw of its clock and its socket.
#[derive(Clone, Copy)]
pub struct SocketSeen {
    /// What the clock read last.
    latest: Option<u64>,
    /// What it had read before the last call that found the socket empty. What waits there came later.
    empty: Option<u64>,
}

impl SocketSeen {
    /// The clock wasn't read, and the socket wasn't found empty.
    pub(crate) fn nothing() -> SocketSeen
        ensures { result ≡ nothing_seen }
    {
        SocketSeen {
            latest: None,
            empty: None,
        }
    }

    /// The clock was read.
    pub(crate) fn note_reading(&mut self, reading: u64)
        ensures { self.new ≡ record self.old { latest = Some reading } }
    {
        self.latest = Some(reading);
    }

    /// The socket was found empty.
    pub(crate) fn note_empty(&mut self)
        ensures { self.new ≡ record self.old { empty = self.old.latest } }
    {
        self.empty = self.latest;
    }

    /// Whether a datagram is heard, where the clock was read once it had come.
    pub(crate) fn is_heard(&self, reading: u64) -> bool
        ensures { result ≡ is_heard reading self.now }
    {
        match self.empty {
            Some(empty) => reading.saturating_sub(empty) <= LONGEST_IN_SOCKET,
            None => false,
        }
    }
}
