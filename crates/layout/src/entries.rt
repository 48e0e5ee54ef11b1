//! The entries of a layout, whose names for one another are places.

ghost use Rattle.std.specs.Prelude.{◌≡◌, IfOk};

use crate::ids::{BorderId, PointId, RouteId, SectionId, SignalId};
use crate::port::Port;
use sci_telegram::{Aspect, Name, Side};
use std::alloc::{AllocError, Global};
use std::marker::Model;

/// A track: the ports `a` and `b`, and nothing between.
#[derive(Clone, Copy, Debug)]
pub struct Track {
    /// Its name.
    pub name: Name,
    /// The section in which it lies.
    pub section: SectionId,
}

/// A point.
#[derive(Clone, Copy, Debug)]
pub struct Point {
    /// Its name, and that of its controller.
    pub name: Name,
    /// The identity of its controller, 1 to 4294967295.
    pub id: u32,
    /// The section in which it lies.
    pub section: SectionId,
}

/// Two ports that lie end to end.
#[derive(Clone, Copy, Debug, PartialEq, Eq)]
pub struct Joint {
    /// The port that is written first.
    pub first: Port,
    /// The port that is written second.
    pub second: Port,
}

/// A signal.
#[derive(Clone, Copy, Debug)]
pub struct Signal {
    /// Its name, and that of its controller.
    pub name: Name,
    /// The identity of its controller, 1 to 4294967295.
    pub id: u32,
    /// The port at which it stands. It rules the trains that leave the element there.
    pub at: Port,
}

/// Where a route ends.
#[derive(Clone, Copy, Debug, PartialEq, Eq)]
pub enum Exit {
    /// At a signal.
    Signal(SignalId),
    /// At a border.
    Border(BorderId),
}

/// A route, as the table of routes writes it.
#[derive(Debug, Drop)]
pub struct Route {
    pub(crate) name: Name,
    pub(crate) entry: SignalId,
    pub(crate) exit: Exit,
    pub(crate) path: Vec<Port>,
    pub(crate) points: Vec<(PointId, Side)>,
    pub(crate) flank: Vec<(PointId, Side)>,
    pub(crate) approach: Vec<SectionId>,
    pub(crate) extra: Vec<RouteId>,
    pub(crate) aspect: Aspect,
}

impl Model for Route {
    ghost use Rattle.layout.specs.Entries.{RouteEntry};

    ghost Value = { RouteEntry };

    ghost view = { λ r. record {
      name = r.name;
      entry = r.entry;
      exit = r.exit;
      path = r.path.items;
      points = r.points.items;
      flank = r.flank.items;
      approach = r.approach.items;
      extra = r.extra.items;
      aspect = r.aspect;
    } };
}

impl Route {
    /// An equal one.
    pub(crate) fn copy(&self, alloc: Global) -> Result<Route, AllocError>
        ensures { IfOk result (λ r. r ≡ self.now) }
    {
        let path = Vec::from_slice(alloc, &self.path)?;
        let points = Vec::from_slice(alloc, &self.points)?;
        let flank = Vec::from_slice(alloc, &self.flank)?;
        let approach = Vec::from_slice(alloc, &self.approach)?;
        let extra = Vec::from_slice(alloc, &self.extra)?;
        Ok(Route {
            name: self.name,
            entry: self.entry,
            exit: self.exit,
            path,
            points,
            flank,
            approach,
            extra,
            aspect: self.aspect,
        })
    }

    /// Its name.
    pub fn name(&self) -> &Name
        ensures { result.now ≡ self.now.name }
    {
        &self.name
    }

    /// The signal at which it begins.
    pub fn entry(&self) -> SignalId
        ensures { result ≡ self.now.entry }
    {
        self.entry
    }

    /// Where it ends.
    pub fn exit(&self) -> Exit
        ensures { result ≡ self.now.exit }
    {
        self.exit
    }

    /// The port by which each of its elements is left, in the order of the path.
    pub fn path(&self) -> &[Port]
        ensures { result.now ≡ self.now.path }
    {
        &self.path
    }

    /// The points on its path, and the side at which each has to lie.
    pub fn points(&self) -> &[(PointId, Side)]
        ensures { result.now ≡ self.now.points }
    {
        &self.points
    }

    /// The points off its path that protect its flank, and the side at which each has to lie.
    pub fn flank(&self) -> &[(PointId, Side)]
        ensures { result.now ≡ self.now.flank }
    {
        &self.flank
    }

    /// The sections on which a train approaches its entry signal.
    pub fn approach(&self) -> &[SectionId]
        ensures { result.now ≡ self.now.approach }
    {
        &self.approach
    }

    /// The routes that are listed as conflicting, beside those that conflict by themselves.
    pub fn extra(&self) -> &[RouteId]
        ensures { result.now ≡ self.now.extra }
    {
        &self.extra
    }

    /// The aspect that its entry signal shows for it: proceed, or slow where it is passed slowly.
    pub fn aspect(&self) -> Aspect
        ensures { result ≡ self.now.aspect }
    {
        self.aspect
    }
}
