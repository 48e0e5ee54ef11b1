//! The layout of one station.

ghost use Rattle.std.specs.Prelude.{◌≡◌, IfErr, IfOk};
ghost use Rattle.layout.specs.Faults.{IsFirstFault};
ghost use Rattle.toml.specs.View.{table_view};
ghost use Rattle.layout_text.specs.FirstFault.{Gives};
ghost use Rattle.layout_text.specs.Limits.{all_within};
ghost use Rattle.layout.specs.Once.{Once};
ghost use Rattle.layout.specs.Station.{IsStation};
ghost use Rattle.layout.specs.NamesResolved.{names_of, entries_of, ports_once, layout_of, layout_in, section_reported};
ghost use Rattle.layout_text.specs.declared.fault.TableName.TheVariants as named;

use crate::detector::Detector;
use crate::doubles::{directory, ids, joined, reported, signalled};
use crate::entries::{Joint, Point, Route, Signal, Track};
use crate::names_resolved::site;
use indexmap::IndexMap;
use layout_text::{
    LayoutFault, Place, Station, Step, TableName, WrittenLayout, document, each, within_limits,
    written,
};
use sci_telegram::Name;
use std::alloc::{AllocError, Global};
use std::marker::Model;
use toml::Table;

/// The entries of a text, of which some port may still stand in two joints, or have two signals.
#[derive(Debug)]
pub(crate) struct Draft {
    pub(crate) station: Station,
    pub(crate) sections: Vec<Name>,
    pub(crate) tracks: Vec<Track>,
    pub(crate) points: Vec<Point>,
    pub(crate) borders: Vec<Name>,
    pub(crate) joints: Vec<Joint>,
    pub(crate) signals: Vec<Signal>,
    pub(crate) detectors: Vec<Detector>,
    pub(crate) routes: Vec<Route>,
}

// Written by hand, so that it is proved and compiled here alone.
impl Drop for Draft {
    fn drop(self) {
        let Self {
            station: _,
            sections: _,
            tracks: _,
            points: _,
            borders: _,
            joints: _,
            signals: _,
            detectors: _,
            routes: _,
        } = self;
    }
}

impl Model for Draft {
    ghost use Rattle.layout.specs.Entries.{Site};

    ghost Value = { Site };

    ghost view = { λ l. record {
      station = l.station;
      sections = l.sections.items;
      tracks = l.tracks.items;
      points = l.points.items;
      borders = l.borders.items;
      joints = l.joints.items;
      signals = l.signals.items;
      detectors = l.detectors.items;
      routes = l.routes.items;
    } };
}

/// The layout of one station: what stands where, and which routes there are. An entry is named by its
/// place in its list, counted from 0. No name and no identity is used twice, no port is joined twice, and
/// no two signals stand at one. It is a station: it names only what is there, keeps every limit, and
/// reports each section once.
#[derive(Debug, Drop)]
pub struct Layout {
    draft: Draft,
}

impl Model for Layout {
    ghost use Rattle.layout.specs.Entries.{Site};
    ghost use Rattle.layout.specs.Once.{Once};
    ghost use Rattle.layout.specs.Station.{IsStation};

    ghost Value = { Site };

    ghost view = { λ l. l.draft };

    ghost invariant = { λ l. Once l.draft × IsStation l.draft };
}

/// Tests that a section is reported by some detector.
#[derive(Clone, Copy)]
struct IsReported<'a>(&'a IndexMap<Name, Place>);

impl<'a> Step for IsReported<'a> {
    ghost use Rattle.layout.specs.NamesResolved.{section_reported};

    type From = Name;

    type To = ();

    ghost gives = { λ reported place name. section_reported reported.0.now.entries place name };

    fn step(&self, _alloc: Global, place: Place, from: &Name) -> Result<(), LayoutFault> {
        if self.0.contains_key(from) {
            return Ok(());
        }
        Err(LayoutFault::UnknownName(place))
    }
}

/// Tests that every section is reported.
fn all_reported(
    alloc: Global,
    reported: &IndexMap<Name, Place>,
    sections: &[Name],
) -> Result<(), LayoutFault>
    ensures { Gives (λ u. u) result (all_within (section_reported reported.now.entries) named.Section sections.now) }
{
    each(alloc, &IsReported(reported), TableName::Section, sections)?;
    Ok(())
}

/// All names, of a layout that keeps the limits and in which no name and no identity is used twice.
#[tactic(auto, unfolding(crate::specs::NamesResolved::names_of))]
fn names_of(alloc: Global, written: &WrittenLayout) -> Result<IndexMap<Name, Place>, LayoutFault>
    ensures { Gives (λ m. m.entries) result (names_of written.now) }
{
    within_limits(alloc, written)?;
    let directory = directory(alloc, written)?;
    let _ids = ids(alloc, written)?;
    Ok(directory)
}

/// The layout of the entries, of which every name is there and every section reported.
#[tactic(auto, unfolding(crate::specs::NamesResolved::entries_of))]
fn entries_of(alloc: Global, written: &WrittenLayout) -> Result<Draft, LayoutFault>
    ensures { Gives (λ d. d) result (entries_of written.now) }
{
    let directory = names_of(alloc, written)?;
    let reported = reported(alloc, &written.detectors)?;
    let draft = site(alloc, &directory, written)?;
    all_reported(alloc, &reported, &draft.sections)?;
    Ok(draft)
}

/// Tests that no port is joined twice, and that no two signals stand at one.
#[tactic(auto, unfolding(crate::specs::NamesResolved::ports_once))]
fn ports_once(alloc: Global, draft: &Draft) -> Result<(), LayoutFault>
    ensures { Gives (λ u. u) result (ports_once draft.now) }
{
    let _joined = joined(alloc, &draft.joints)?;
    let _signalled = signalled(alloc, &draft.signals)?;
    Ok(())
}

/// The layout that a TOML document is.
#[tactic(auto, unfolding(crate::specs::NamesResolved::layout_of), using(crate::proofs::OnceSite::once_of))]
fn layout_of(alloc: Global, document: &Table) -> Result<Layout, LayoutFault>
    ensures read { Gives (λ l. l) result (layout_of (table_view document.now)) }
    ensures once { IfOk result (λ l. Once l) }
    ensures station { IfOk result (λ l. IsStation l) }
{
    let written = written(alloc, document)?;
    let draft = entries_of(alloc, &written)?;
    ports_once(alloc, &draft)?;
    Ok(Layout { draft })
}

/// The layout that a text is.
#[tactic(auto, unfolding(crate::specs::NamesResolved::layout_in))]
fn layout_in(alloc: Global, text: &str) -> Result<Layout, LayoutFault>
    ensures read { Gives (λ l. l) result (layout_in text.now) }
    ensures once { IfOk result (λ l. Once l) }
    ensures station { IfOk result (λ l. IsStation l) }
{
    let document = document(alloc, text)?;
    layout_of(alloc, &document)
}

/// Equal detection controllers.
fn copy_detectors(alloc: Global, detectors: &[Detector]) -> Result<Vec<Detector>, AllocError>
    ensures { IfOk result (λ v. v.items ≡ detectors.now) }
{
    let mut copies = Vec::new(alloc);
    for detector in detectors {
        copies.push(detector.copy(alloc)?)?;
    }
    Ok(copies)
}

/// Equal routes.
fn copy_routes(alloc: Global, routes: &[Route]) -> Result<Vec<Route>, AllocError>
    ensures { IfOk result (λ v. v.items ≡ routes.now) }
{
    let mut copies = Vec::new(alloc);
    for route in routes {
        copies.push(route.copy(alloc)?)?;
    }
    Ok(copies)
}

impl Draft {
    /// Equal entries.
    fn copy(&self, alloc: Global) -> Result<Draft, AllocError>
        ensures { IfOk result (λ d. d ≡ self.now) }
    {
        let sections = Vec::from_slice(alloc, &self.sections)?;
        let tracks = Vec::from_slice(alloc, &self.tracks)?;
        let points = Vec::from_slice(alloc, &self.points)?;
        let borders = Vec::from_slice(alloc, &self.borders)?;
        let joints = Vec::from_slice(alloc, &self.joints)?;
        let signals = Vec::from_slice(alloc, &self.signals)?;
        let detectors = copy_detectors(alloc, &self.detectors)?;
        let routes = copy_routes(alloc, &self.routes)?;
        Ok(Draft {
            station: self.station,
            sections,
            tracks,
            points,
            borders,
            joints,
            signals,
            detectors,
            routes,
        })
    }
}

impl Layout {
    /// Reads a layout: the text's entries, all and in order, or the first fault.
    ///
    /// The text is TOML 1.1. The tests are made in this order: that it is TOML; that no key is missing
    /// and no value of a wrong kind, as it is read; the limits; that no name and no identity is used
    /// twice, and no section reported twice; that every name and port is there, and every section
    /// reported; that no port is joined twice, and no two signals stand at one port. `OutOfMemory`
    /// comes only where memory was refused.
    pub fn read(alloc: Global, text: &str) -> Result<Layout, LayoutFault>
        ensures read { Gives (λ l. l) result (layout_in text.now) }
        ensures once { IfOk result (λ l. Once l) }
        ensures station { IfOk result (λ l. IsStation l) }
        ensures fault { IfErr result (IsFirstFault text.now) }
    {
        layout_in(alloc, text)
    }

    /// An equal layout.
    pub fn copy(&self, alloc: Global) -> Result<Layout, AllocError>
        ensures { IfOk result (λ l. l ≡ self.now) }
    {
        let draft = self.draft.copy(alloc)?;
        Ok(Layout { draft })
    }

    /// The station.
    pub fn station(&self) -> &Station
        ensures { result.now ≡ self.now.station }
    {
        &self.draft.station
    }

    /// The names of the sections.
    pub fn sections(&self) -> &[Name]
        ensures { result.now ≡ self.now.sections }
    {
        &self.draft.sections
    }

    /// The tracks.
    pub fn tracks(&self) -> &[Track]
        ensures { result.now ≡ self.now.tracks }
    {
        &self.draft.tracks
    }

    /// The points.
    pub fn points(&self) -> &[Point]
        ensures { result.now ≡ self.now.points }
    {
        &self.draft.points
    }

    /// The names of the borders.
    pub fn borders(&self) -> &[Name]
        ensures { result.now ≡ self.now.borders }
    {
        &self.draft.borders
    }

    /// The joints. In no layout a name, an identity, a joined port or a signal's port stands twice. Every
    /// layout is a station: it names only what is there, keeps every limit, and reports each section once.
    pub fn joints(&self) -> &[Joint]
        ensures lent { result.now ≡ self.now.joints }
        ensures once { Once self.now }
        ensures station { IsStation self.now }
    {
        &self.draft.joints
    }

    /// The signals.
    pub fn signals(&self) -> &[Signal]
        ensures { result.now ≡ self.now.signals }
    {
        &self.draft.signals
    }

    /// The detection controllers.
    pub fn detectors(&self) -> &[Detector]
        ensures { result.now ≡ self.now.detectors }
    {
        &self.draft.detectors
    }

    /// The routes.
    pub fn routes(&self) -> &[Route]
        ensures { result.now ≡ self.now.routes }
    {
        &self.draft.routes
    }
}
