//! Tests of what the program `station` does: reports, files, want of memory, runs over memory and sockets, captures, command
//! lines, links that a client closes, texts of closings, and all nodes of a station in one process.
#![tactic(auto)]

#[cfg(test)]
mod addresses;
#[cfg(test)]
mod captures;
#[cfg(test)]
mod closings_texts;
#[cfg(test)]
mod command_bench;
#[cfg(test)]
mod controllers;
#[cfg(test)]
mod endless_files;
#[cfg(test)]
mod faults;
#[cfg(test)]
mod link_closings;
#[cfg(test)]
mod memory;
#[cfg(test)]
mod node_stories;
#[cfg(test)]
mod numbers;
#[cfg(test)]
mod one_round;
#[cfg(test)]
mod panel;
#[cfg(test)]
mod panel_bench;
#[cfg(test)]
mod panel_beside;
#[cfg(test)]
mod panel_of_node;
#[cfg(test)]
mod run_bench;
#[cfg(test)]
mod runs;
#[cfg(test)]
mod service;
#[cfg(test)]
mod sockets;
#[cfg(test)]
mod station;
#[cfg(test)]
mod station_files;
#[cfg(test)]
mod station_memory;
#[cfg(test)]
mod writers;
