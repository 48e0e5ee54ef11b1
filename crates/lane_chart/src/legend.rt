//! What the marks of a chart mean.

use crate::marks::Marks;
use drawing::{Anchor, Spot};
use std::alloc::AllocError;

/// How many columns the legend has.
const COLUMNS: i32 = 5;
/// How wide a column is.
const COLUMN: i32 = 310;
/// How high a line is.
const LINE: i32 = 20;
/// How high the legend is.
pub(crate) const HEIGHT: i32 = 110;

/// A sample of what is drawn.
#[derive(Clone, Copy)]
struct Sample {
    /// Its class.
    class: &'static str,
    /// How far above or below the middle it is drawn.
    offset: i32,
    /// What it means.
    words: &'static str,
}

/// A sample by its class, how far above or below the middle it is drawn, and its meaning.
const SAMPLES: &[Sample] = &[
    Sample {
        class: "band stop",
        offset: 0,
        words: "signal: stop",
    },
    Sample {
        class: "band proceed",
        offset: 0,
        words: "signal: proceed",
    },
    Sample {
        class: "band slow",
        offset: 0,
        words: "signal: slow",
    },
    Sample {
        class: "band held",
        offset: 0,
        words: "below: route held for the signal",
    },
    Sample {
        class: "band moving",
        offset: 0,
        words: "point: no end position",
    },
    Sample {
        class: "band left",
        offset: -4,
        words: "point: left",
    },
    Sample {
        class: "band right",
        offset: 4,
        words: "point: right",
    },
    Sample {
        class: "band driven-left",
        offset: 0,
        words: "below: point driven left",
    },
    Sample {
        class: "band driven-right",
        offset: 0,
        words: "below: point driven right",
    },
    Sample {
        class: "band occupied",
        offset: 0,
        words: "section: occupied",
    },
    Sample {
        class: "band clear",
        offset: 0,
        words: "section: clear",
    },
    Sample {
        class: "band set",
        offset: 0,
        words: "route: set, no authority yet",
    },
    Sample {
        class: "band authority",
        offset: 0,
        words: "route: has authority",
    },
    Sample {
        class: "band withdrawn",
        offset: 0,
        words: "route: authority withdrawn",
    },
    Sample {
        class: "band ended",
        offset: 0,
        words: "route: sections freed, so many",
    },
    Sample {
        class: "band free",
        offset: 0,
        words: "route: not set",
    },
    Sample {
        class: "band ready",
        offset: 0,
        words: "link: ready",
    },
    Sample {
        class: "band up",
        offset: 0,
        words: "link: up, not ready yet",
    },
    Sample {
        class: "band down",
        offset: 0,
        words: "link: down",
    },
    Sample {
        class: "joined",
        offset: 0,
        words: "thick edge: several changes",
    },
    Sample {
        class: "band node-line",
        offset: 0,
        words: "triangle on it: node made anew",
    },
];

/// Draws the legend, from this height on: samples, and what they mean.
pub(crate) fn draw_legend(marks: &mut Marks, top: i32) -> Result<(), AllocError> {
    let mut column: i32 = 0;
    let mut y = top.saturating_add(LINE);
    for sample in SAMPLES {
        let x = COLUMN.saturating_mul(column).saturating_add(24);
        let height = y.saturating_add(sample.offset);
        marks.level_line(sample.class, x, x.saturating_add(40), height)?;
        let at = Spot {
            x: x.saturating_add(50),
            y: y.saturating_add(3),
        };
        marks.text("note", at, Anchor::Start, sample.words)?;
        column = column.saturating_add(1);
        if column == COLUMNS {
            column = 0;
            y = y.saturating_add(LINE);
        }
    }
    Ok(())
}
