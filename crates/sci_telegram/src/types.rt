//! The type numbers of telegrams, in the order of the table of telegrams (this profile).

/// Every protocol: the interlocking asks for the states of all objects.
pub(crate) const INITIALISATION_REQUEST: u16 = 0x0021;

/// Every protocol: the states follow.
pub(crate) const START_INITIALISATION: u16 = 0x0022;

/// Every protocol: all states were sent.
pub(crate) const INITIALISATION_COMPLETED: u16 = 0x0023;

/// Every protocol: the interlocking tells its version.
pub(crate) const VERSION_CHECK: u16 = 0x0024;

/// Every protocol: the controller tells its version, and whether the two match.
pub(crate) const VERSION_ANSWER: u16 = 0x0025;

/// SCI-P: a point is to move.
pub(crate) const MOVE_POINT: u16 = 0x0001;

/// SCI-P: where a point lies.
pub(crate) const POINT_POSITION: u16 = 0x000B;

/// SCI-P: a point didn't reach the commanded position in time.
pub(crate) const TIMEOUT: u16 = 0x000C;

/// SCI-LS: a signal is to show an aspect.
pub(crate) const INDICATE_ASPECT: u16 = 0x0001;

/// SCI-LS: what a signal shows.
pub(crate) const INDICATED_ASPECT: u16 = 0x0003;

/// SCI-TDS: whether a section is occupied.
pub(crate) const OCCUPANCY_STATUS: u16 = 0x0007;
