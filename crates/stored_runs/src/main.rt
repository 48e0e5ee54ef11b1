//! Carries out stored files, each on a new station or a new pair, and prints what they answer. The file `runs` names in
//! each line what is done, and the files with which it is done. Of stations:
//!
//! - `sim LAYOUT EVENTS`: the lines of a file are carried out, and answered one by one;
//! - `replay LAYOUT SESSION`: a recorded session is applied again;
//! - `each-sim LAYOUT EVENTS` and `each-replay LAYOUT SESSION`: so with each line of a file, as if it stood alone;
//! - `script LAYOUT SCRIPT`: a script is judged;
//! - `decode-session LAYOUT SESSION` and `capture LAYOUT SESSION`: what goes over the network in a session is told in words,
//!   or captured;
//! - `decode-node LAYOUT NAME RECORD` and `capture-node LAYOUT NAME RECORD`: so with the record of the node of this name, and
//!   `chart-node LAYOUT NAME RECORD` draws it;
//! - `chart LAYOUT SESSION FROM TO`: a session is drawn, from one time in milliseconds to another, or a hyphen where none is
//!   asked for;
//! - `restarts NAME LAYOUT EVENTS ROUNDS NUMBER: NODES`: each of these nodes is made anew after every NUMBERth event that the
//!   lines of EVENTS come to, ROUNDS follow after them, and the station has to be safe after every event.
//!
//! Of layouts, most of them a small station with a change:
//!
//! - `report CASES`: what `station check` writes, and its status;
//! - `commented CASES`: the same of the text after many lines of comment;
//! - `explain CASES`: what `station check --explain` writes, and its status;
//! - `routes CASES` and `complete CASES`: what `station routes` writes, and `station check --complete` behind its report;
//! - `table LAYOUT` and `csv LAYOUT`: the control table of a layout, in either form;
//! - `plan LAYOUT ROUTE PICTURE`: the track plan of a layout, with a route and with what is seen in a picture, or a hyphen where
//!   none is asked for;
//! - `contents CASES`: what the layout reads from the text, and what the control table says of each route.
//!
//! An empty line parts two cases. The first line of a case names a layout of the folder `layouts`, and says after a colon
//! what is so in it. Each line `-OLD` after it, with a line `+NEW`, puts NEW in place of the first OLD in its text.
//!
//! Of datagrams:
//!
//! - `decode LAYOUT LINES` and `plain-decode LINES`: each line of a file, as hexadecimal digits, is put into words, those of a
//!   layout or without one.
//!
//! Of pairs:
//!
//! - `pair TEXT`: the lines of a text are carried out, and answered one by one;
//! - `each-pair FRAME LINES`: so with the text of a frame, once for each line of a file, which comes in place of its word
//!   `LINE`.
//!
//! After the line comes what was written, and last the status.
#![tactic(auto)]

mod asked;
mod captures;
mod cases;
mod contents;
mod failure;
mod files;
mod kind;
mod lines;
mod restarts;
mod runs;

use crate::runs::carry_out_all;
use std::process::ExitCode;

fn main(rt: HostRuntime) -> ExitCode {
    match carry_out_all(&rt) {
        Ok(()) => ExitCode::SUCCESS,
        Err(failure) => {
            // Where this can't be written, the status has to do.
            let _ = eprintln!(rt; "{}", failure.text());
            ExitCode::FAILURE
        }
    }
}
