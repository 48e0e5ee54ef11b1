//! What a line of the list of runs asks for.

use crate::failure::Failure;

/// What a line of the list of runs asks for.
#[derive(Clone, Copy)]
pub(crate) enum Kind {
    Report,
    Commented,
    Explain,
    Routes,
    Complete,
    Completed,
    Contents,
    Table,
    Csv,
    Plan,
    Sim,
    EachSim,
    Replay,
    EachReplay,
    Script,
    Chart,
    DecodeSession,
    Capture,
    ChartNode,
    DecodeNode,
    CaptureNode,
    Decode,
    PlainDecode,
    Pair,
    EachPair,
    Restarts,
}

/// The words of the list.
const KINDS: &[(&str, Kind)] = &[
    ("report", Kind::Report),
    ("commented", Kind::Commented),
    ("explain", Kind::Explain),
    ("routes", Kind::Routes),
    ("complete", Kind::Complete),
    ("completed", Kind::Completed),
    ("contents", Kind::Contents),
    ("table", Kind::Table),
    ("csv", Kind::Csv),
    ("plan", Kind::Plan),
    ("sim", Kind::Sim),
    ("each-sim", Kind::EachSim),
    ("replay", Kind::Replay),
    ("each-replay", Kind::EachReplay),
    ("script", Kind::Script),
    ("chart", Kind::Chart),
    ("decode-session", Kind::DecodeSession),
    ("capture", Kind::Capture),
    ("chart-node", Kind::ChartNode),
    ("decode-node", Kind::DecodeNode),
    ("capture-node", Kind::CaptureNode),
    ("decode", Kind::Decode),
    ("plain-decode", Kind::PlainDecode),
    ("pair", Kind::Pair),
    ("each-pair", Kind::EachPair),
    ("restarts", Kind::Restarts),
];

/// What a word asks for.
pub(crate) fn kind_of(word: &str) -> Result<Kind, Failure> {
    for (known, kind) in KINDS {
        if *known == word {
            return Ok(*kind);
        }
    }
    Err(Failure::Words)
}
