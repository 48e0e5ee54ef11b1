//! The entries of a layout as they are written, which call one another by name.

ghost use Rattle.std.specs.Prelude.{◌≡◌};

use sci_telegram::{Aspect, Name, Side};
use std::marker::Model;

/// The word for a port of an element.
#[derive(Clone, Copy, Debug, PartialEq, Eq, Hash)]
pub enum End {
    /// One end of a track.
    A,
    /// The other end of a track.
    B,
    /// The side of a point from which it parts.
    Tip,
    /// The left leg of a point.
    Left,
    /// The right leg of a point.
    Right,
    /// The one port of a border.
    End,
}

/// A port as it is written, `ELEMENT.port`.
#[derive(Clone, Copy, Debug)]
pub struct PortName {
    /// The name of its element.
    pub element: Name,
    /// Which of its ports it is.
    pub end: End,
}

/// The station, which is the interlocking.
#[derive(Clone, Copy, Debug)]
pub struct Station {
    /// Its name in telegrams.
    pub name: Name,
    /// Its identity on the links, 1 to 4294967295.
    pub id: u32,
    /// The four registers from which the safety code starts, if the text gives them.
    pub key: Option<[u32; 4]>,
}

/// A track: its name and its section.
#[derive(Clone, Copy, Debug)]
pub struct WrittenTrack {
    /// Its name.
    pub name: Name,
    /// The name of the section in which it lies.
    pub section: Name,
}

/// A point, with the identity of its controller.
#[derive(Clone, Copy, Debug)]
pub struct WrittenPoint {
    /// Its name, and that of its controller.
    pub name: Name,
    /// The identity of its controller, 1 to 4294967295.
    pub id: u32,
    /// The name of the section in which it lies.
    pub section: Name,
}

/// A joint: two ports that lie end to end.
#[derive(Clone, Copy, Debug)]
pub struct WrittenJoint {
    /// The port that is written first.
    pub first: PortName,
    /// The port that is written second.
    pub second: PortName,
}

/// A signal, with the identity of its controller.
#[derive(Clone, Copy, Debug)]
pub struct WrittenSignal {
    /// Its name, and that of its controller.
    pub name: Name,
    /// The identity of its controller, 1 to 4294967295.
    pub id: u32,
    /// The port at which it stands.
    pub at: PortName,
}

/// A detection controller.
#[derive(Debug, Drop)]
pub struct WrittenDetector {
    /// Its name.
    pub name: Name,
    /// Its identity on its link, 1 to 4294967295.
    pub id: u32,
    /// The names of the sections that it reports, in its own order.
    pub sections: Vec<Name>,
}

impl Model for WrittenDetector {
    ghost use Rattle.layout_text.specs.Written.{DetectorText};

    ghost Value = { DetectorText };

    ghost view = { λ d. record { name = d.name; id = d.id; sections = d.sections.items } };
}

impl WrittenDetector {
    /// The names of the sections that it reports, in its own order.
    pub fn sections(&self) -> &[Name]
        ensures { result.now ≡ self.now.sections }
    {
        &self.sections
    }
}

/// A route, as the table of routes writes it.
#[derive(Debug, Drop)]
pub struct WrittenRoute {
    /// Its name.
    pub name: Name,
    /// The name of the signal at which it begins.
    pub entry: Name,
    /// The name of the signal or border at which it ends.
    pub exit: Name,
    /// The port by which each of its elements is left, in the order of the path.
    pub path: Vec<PortName>,
    /// The names of the points on its path, and the side at which each has to lie.
    pub points: Vec<(Name, Side)>,
    /// The names of the points off its path that protect its flank, and the side at which each has to lie.
    pub flank: Vec<(Name, Side)>,
    /// The names of the sections on which a train approaches its entry signal.
    pub approach: Vec<Name>,
    /// The names of the routes that are listed as conflicting.
    pub extra: Vec<Name>,
    /// The aspect that its entry signal shows for it.
    pub aspect: Aspect,
}

impl Model for WrittenRoute {
    ghost use Rattle.layout_text.specs.Written.{RouteText};

    ghost Value = { RouteText };

    ghost view = { λ r. record {
      name = r.name;
      entry = r.entry;
      exit = r.exit;
      path = r.path.items;
      points = r.points.items;
      flank = r.flank.items;
      approach = r.approach.items;
      extra = r.extra.items;
      aspect = r.aspect;
    } };
}

/// A layout: all entries of its text, each list in the order of the text.
#[derive(Debug)]
pub struct WrittenLayout {
    /// The station.
    pub station: Station,
    /// The names of the sections.
    pub sections: Vec<Name>,
    /// The tracks.
    pub tracks: Vec<WrittenTrack>,
    /// The points.
    pub points: Vec<WrittenPoint>,
    /// The names of the borders.
    pub borders: Vec<Name>,
    /// The joints.
    pub joints: Vec<WrittenJoint>,
    /// The signals.
    pub signals: Vec<WrittenSignal>,
    /// The detection controllers.
    pub detectors: Vec<WrittenDetector>,
    /// The routes.
    pub routes: Vec<WrittenRoute>,
}

// Written by hand, so that it is proved and compiled here alone.
impl Drop for WrittenLayout {
    fn drop(self) {
        let Self {
            station: _,
            sections: _,
            tracks: _,
            points: _,
            borders: _,
            joints: _,
            signals: _,
            detectors: _,
            routes: _,
        } = self;
    }
}

impl Model for WrittenLayout {
    ghost use Rattle.layout_text.specs.Written.{LayoutText};

    ghost Value = { LayoutText };

    ghost view = { λ l. record {
      station = l.station;
      sections = l.sections.items;
      tracks = l.tracks.items;
      points = l.points.items;
      borders = l.borders.items;
      joints = l.joints.items;
      signals = l.signals.items;
      detectors = l.detectors.items;
      routes = l.routes.items;
    } };
}
