//! The panel that is asked for.

use crate::own_text::OwnText;

/// A panel that is asked for: of this text, at this port.
#[derive(Drop)]
pub struct PanelAsked {
    pub text: OwnText,
    pub port: u16,
}

/// How far the panel is that runs beside the drawing.
#[derive(Drop)]
pub enum PanelStage {
    /// None runs.
    Idle,
    /// One is to begin.
    Asked(PanelAsked),
    Running,
    /// It is to end.
    Stopping,
}
