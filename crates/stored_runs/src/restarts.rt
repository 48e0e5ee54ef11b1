//! Each node of a station made anew after the events of a list, and the station looked at after every event.
//!
//! The events of a list are those that its lines come to on a new station, where each flow is rounds of 100 ms. From the
//! first request of a route on, after each event and for each node, a new station is given the events up to there. Then the
//! node is made anew, and the rest of the events follow, and after them rounds that begin with what was sent on this station.
//! After an event that another node takes no such run is made: had the node been made anew before it, the station would be
//! the same, since nothing of the node changes in this event, and a restart sends nothing. Of the places that are left the
//! first of so many is taken as the list names. A node gets clock and number 0, or its clock and the first number that it had. The
//! interlocking is also made anew a second and a third time. The station has to be safe after every event. Since a node was
//! made anew, datagrams that were never sent so (2) and points that aren't driven so (4) may be refused; commands are refused
//! 2 in the hold alone.
//!
//! Functions that only pass on what a `World` answers have no clauses: so those above them are proved over little.

pub(crate) mod fault;
mod known;
pub(crate) mod lists;
mod rounds;
mod run;
mod tally;
mod trials;
mod watch;
mod worlds;
