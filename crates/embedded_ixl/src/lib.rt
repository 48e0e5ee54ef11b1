//! An interlocking inside a program's own loop: the rules of the loop, on which the promise of a station of processes stands, are
//! kept here, whoever calls.
#![tactic(auto)]

mod call_refusal;
mod display;
mod embedded;
mod laws;
mod places;
mod start_fault;

pub use call_refusal::CallRefusal;
pub use display::{Authority, Readiness};
pub use embedded::{Addressed, EmbeddedInterlocking};
pub use laws::{
    a_refusal_has_its_cause, a_request_is_accepted_where_admissible, calls_are_inputs,
    loops_are_as_worked_by_hand, one_that_starts_gives_nothing, what_is_heard_waited_briefly,
    what_leaves_is_fresh,
};
pub use places::Kind;
pub use start_fault::StartFault;

// The everyday items of the crates below.
pub use ixl_state::{
    Aspect, Closings, Command, Name, Named, Occupancy, PointId, Refusal, RouteId, SectionId, Side,
    SignalId, Thing,
};
