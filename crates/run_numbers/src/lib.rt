//! The numbers of a run that an operator may look at: how often what happened, how many links are up, and how much memory is taken.
//! They are counted here, told as lines and read from lines again, and written as Prometheus reads them. Each number is a row of one
//! table (`ROWS`), which `specs/Rows.antt` has once more.
#![tactic(auto)]

mod labels;
mod laws;
mod line;
mod metrics;
mod numbers;
mod row;
mod rows;
mod told;

pub use labels::{Fate, Outcome, Reason};
pub use laws::{numbers_are_read_again, rows_are_at_their_places, rows_have_words_of_their_own};
pub use line::{NumberText, read_number};
pub use metrics::metrics_text;
pub use numbers::Numbers;
pub use row::Row;
pub use rows::{NODE_ROWS, PROCESS_ROWS, ROWS};
pub use told::NumbersTold;
