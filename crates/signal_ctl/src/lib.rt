//! A light signal: the aspect that it was told to show, and the moment until which it may show it.
#![tactic(auto)]

mod lamp;
mod laws;
mod signal;

pub use lamp::Lamp;
pub use laws::shows_the_last_aspect_taken;
pub use sci_telegram::Aspect;
pub use signal::Signal;
