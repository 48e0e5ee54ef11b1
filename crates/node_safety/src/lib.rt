//! What the nodes of a station show and drive, as processes or in programs, is safe. There is no code here but laws.
#![tactic(auto)]

mod departures;
mod interlocking_programs;
mod journeys;
mod kinds;
mod laws;
mod orders;
mod processes;
mod programs;
mod records;
mod worked;

pub use departures::what_programs_send_has_left;
pub use interlocking_programs::{
    an_interlocking_program_is_that_of_a_world, what_an_interlocking_program_sends_has_left,
};
pub use journeys::what_keeps_its_shares_is_fresh;
pub use kinds::{Detectors, Interlockings, Openings, Points, Signals};
pub use laws::{
    controllers_are_those_of_a_world, interlockings_are_those_of_a_world,
    orders_tell_all_until_the_next,
};
pub use orders::{what_processes_and_programs_did_is_safe, what_processes_and_programs_do_is_safe};
pub use processes::{
    processes_are_the_nodes_of_a_world, what_processes_do_is_safe,
    what_processes_of_true_clocks_do_is_safe,
};
pub use programs::{
    equipment_follows_its_program, programs_are_the_nodes_of_a_world, programs_start_new_nodes,
    what_programs_send_counts,
};
pub use records::{
    a_process_records_its_node, a_process_that_is_cut_off_records_its_node,
    controllers_write_their_orders,
};
pub use worked::orders_are_as_worked_by_hand;
