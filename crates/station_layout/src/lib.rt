//! What is told of the text of a layout: its track plan as SVG, its control table as engineers print it, and what `station check` tells
//! of a fault, in words that a person can act on.
#![tactic(auto)]

// The track plan, with a route or with what is seen in a picture.
mod drawn_lines;
mod named_entries;
mod picture_text;
mod request;
mod seen;
mod sighting;
mod written_plan;

// The control table, in Markdown or as CSV.
mod cells;
mod conflict_reasons;
mod conflicts;
mod form;
mod laws;
mod lines;
mod points_let_go;
mod row;
mod table;

// What is wrong, in words.
mod advice;
mod advised;
mod detail;
mod detail_words;
mod entry_advice;
mod entry_words;
mod explain;
mod fault_words;
mod field_key;
mod joints;
mod layout_names;
mod port_words;
mod repeats;
mod route_detail;
mod route_sides;
mod route_start;
mod sentence;
mod shared;
mod side_detail;
mod text_place;
mod unknown;
mod value_forms;

pub use conflict_reasons::ConflictReasons;
pub use explain::explain_text;
pub use form::Form;
pub use laws::{
    a_layout_has_one_table, each_conflict_is_told, each_required_point_is_let_go,
    routes_conflict_for_a_reason,
};
pub use table::table_text;
pub use written_plan::plan_text;
