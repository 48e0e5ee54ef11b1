//! The parameters of a link. Times are in milliseconds of the end's own clock.

/// How long after the own stamp that the partner returned last a connection lives.
pub(crate) const TIME_LIMIT: u64 = 1800;

/// After this silence an end sends a heartbeat.
pub(crate) const HEARTBEAT_INTERVAL: u64 = 300;

/// How many items may be unconfirmed.
pub(crate) const WINDOW_SIZE: usize = 20;

/// How far ahead of the expected sequence number a PDU may be.
pub(crate) const SEQUENCE_RANGE: u32 = 200;

/// How long an end stays quiet after its creation and after every close.
pub const QUIET_TIME: u64 = 6000;

/// How many PDUs an end sends in a connection before it closes it.
pub(crate) const CONNECTION_LIMIT: u32 = 2_147_483_000;

/// The version that each end writes.
pub(crate) const OWN_VERSION: [u8; 4] = *b"0303";

/// The window that each end writes: `WINDOW_SIZE`, as the field of an opening has it.
pub(crate) const OWN_WINDOW: u16 = 20;
