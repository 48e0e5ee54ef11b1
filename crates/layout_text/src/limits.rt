//! How many entries a station may have.

ghost use Rattle.std.specs.Prelude.{◌<◌};
ghost use Rattle.layout_text.specs.FirstFault.{Gives};
ghost use Rattle.layout_text.specs.Limits.{at_most, all_within, detector_limit, route_limit, limits_of};
ghost use Rattle.layout_text.specs.declared.fault.TableName.TheVariants as named;

use crate::entries::{WrittenDetector, WrittenLayout, WrittenRoute};
use crate::fault::{LayoutFault, Place, TableName};
use crate::steps::{Step, each};
use std::alloc::Global;

const MOST_SECTIONS: usize = 64;

const MOST_TRACKS: usize = 128;

const MOST_POINTS: usize = 32;

const MOST_BORDERS: usize = 16;

const MOST_SIGNALS: usize = 32;

const MOST_DETECTORS: usize = 16;

const MOST_SECTIONS_OF_A_DETECTOR: usize = 16;

const MOST_ROUTES: usize = 64;

const LONGEST_PATH: usize = 64;

/// Tests that a table has no entry too many.
fn at_most(limit: usize, table: TableName, entries: usize) -> Result<(), LayoutFault>
    requires { limit < 1000 }
    ensures { Gives (λ u. u) result (at_most limit table entries) }
{
    if entries <= limit {
        return Ok(());
    }
    Err(LayoutFault::Limit(Place {
        table,
        entry: limit + 1,
    }))
}

/// Tests one detection controller, and that it is none too many.
struct DetectorLimit;

impl Step for DetectorLimit {
    ghost use Rattle.layout_text.specs.Limits.{detector_limit};

    type From = WrittenDetector;

    type To = ();

    ghost gives = { λ _ place d. detector_limit place d };

    fn step(
        &self,
        _alloc: Global,
        place: Place,
        from: &WrittenDetector,
    ) -> Result<(), LayoutFault> {
        let sections = from.sections.len();
        if place.entry <= MOST_DETECTORS
            && 1 <= sections
            && sections <= MOST_SECTIONS_OF_A_DETECTOR
        {
            return Ok(());
        }
        Err(LayoutFault::Limit(place))
    }
}

/// Tests one route, and that it is none too many.
struct RouteLimit;

impl Step for RouteLimit {
    ghost use Rattle.layout_text.specs.Limits.{route_limit};

    type From = WrittenRoute;

    type To = ();

    ghost gives = { λ _ place r. route_limit place r };

    fn step(&self, _alloc: Global, place: Place, from: &WrittenRoute) -> Result<(), LayoutFault> {
        if place.entry <= MOST_ROUTES && from.path.len() <= LONGEST_PATH {
            return Ok(());
        }
        Err(LayoutFault::Limit(place))
    }
}

/// Tests all detection controllers.
fn detectors_within(alloc: Global, detectors: &[WrittenDetector]) -> Result<(), LayoutFault>
    ensures { Gives (λ u. u) result (all_within detector_limit named.Detector detectors.now) }
{
    each(alloc, &DetectorLimit, TableName::Detector, detectors)?;
    Ok(())
}

/// Tests all routes.
fn routes_within(alloc: Global, routes: &[WrittenRoute]) -> Result<(), LayoutFault>
    ensures { Gives (λ u. u) result (all_within route_limit named.Route routes.now) }
{
    each(alloc, &RouteLimit, TableName::Route, routes)?;
    Ok(())
}

/// Tests the limits, table after table: at most 64 sections, 128 tracks, 32 points, 16 borders and 32 signals, 16 detection
/// controllers of 1 to 16 sections, and 64 routes with paths of at most 64 elements. The fault names the first entry too many.
#[tactic(auto, unfolding(crate::specs::Limits::limits_of))]
pub fn within_limits(alloc: Global, written: &WrittenLayout) -> Result<(), LayoutFault>
    ensures { Gives (λ u. u) result (limits_of written.now) }
{
    at_most(MOST_SECTIONS, TableName::Section, written.sections.len())?;
    at_most(MOST_TRACKS, TableName::Track, written.tracks.len())?;
    at_most(MOST_POINTS, TableName::Point, written.points.len())?;
    at_most(MOST_BORDERS, TableName::Border, written.borders.len())?;
    at_most(MOST_SIGNALS, TableName::Signal, written.signals.len())?;
    detectors_within(alloc, &written.detectors)?;
    routes_within(alloc, &written.routes)
}
