//! The track that a layout with its control table means: places, joints, sections, points, signals, borders and routes as
//! the numbers of the machine of trains.
#![tactic(auto)]

mod ahead;
mod laws;
mod numbers;
mod paths;
mod place;
mod ports;
mod track;

pub use ahead::{Ahead, ahead_of};
pub use laws::{
    heads_come_onto_what_is_ahead, numbers_mean_places, numbers_mean_routes,
    places_have_numbers_of_their_own, throats_lead_from_borders,
    tracks_of_checked_layouts_are_sound, trains_are_kept_apart_on_checked_layouts,
};
pub use numbers::{place_at, place_number};
pub use paths::{entry, path, throat};
pub use place::{Over, Place, Toward};
pub use track::{border_signal, follows, is_facing, leg, own, point, section, signal, turned};

// What crates above need of the crates below.
pub use control_table;
