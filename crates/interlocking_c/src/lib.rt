//! The interlocking for programs in C, in memory that they provide: a static library, which `zendurai_interlocking.h` declares. Memory
//! is taken when an interlocking starts, and never after.
#![tactic(auto)]

mod answers;
mod cause;
mod commands;
mod datagram;
mod display;
mod fault_told;
mod handle;
mod held;
mod known;
mod loop_calls;
mod places;
mod room;
mod start;
mod things;

pub use cause::CauseTold;
pub use commands::{
    zendurai_interlocking_cancel, zendurai_interlocking_close, zendurai_interlocking_move,
    zendurai_interlocking_open, zendurai_interlocking_release, zendurai_interlocking_request,
    zendurai_interlocking_resume,
};
pub use datagram::zendurai_interlocking_next;
pub use display::{
    zendurai_interlocking_authority, zendurai_interlocking_closed, zendurai_interlocking_indicated,
    zendurai_interlocking_link, zendurai_interlocking_point, zendurai_interlocking_readiness,
    zendurai_interlocking_route, zendurai_interlocking_section,
};
pub use handle::Handle;
pub use known::AuthorityTold;
pub use loop_calls::{
    zendurai_interlocking_empty, zendurai_interlocking_hear, zendurai_interlocking_tick,
};
pub use places::{
    zendurai_interlocking_count, zendurai_interlocking_name, zendurai_interlocking_place,
};
pub use start::zendurai_interlocking_start;
