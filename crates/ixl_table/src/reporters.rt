//! Where each section is reported.

ghost use Rattle.std.specs.Prelude.{◌≡◌, ◌<◌, IfNone, IfOk, IfSome, Some, length, map, slice_get};
ghost use Rattle.std.specs.List.{Contains};
ghost use Rattle.ixl_spec.specs.layout.Entries.{DetectorEntry};
ghost use Rattle.ixl_table.specs.Table.{AreReporters, IsReportedIn, as_section};
ghost use Rattle.ixl_table.specs.inside.Made.{NoneReports};

use crate::row::section_numbers;
use ixl_spec::{Checked, Detector, Point, SectionId};
use std::alloc::{AllocError, Global};

/// The place of a section in a list.
fn place_of(sections: &[SectionId], section: usize) -> Option<usize>
    ensures some { IfSome result (λ place. slice_get sections.now place ≡ Some (as_section section)) }
    ensures none { IfNone result (Contains sections.now (as_section section) → ⊥) }
{
    for (place, other) in sections.iter().enumerate() {
        if other.0 == section {
            return Some(place);
        }
    }
    None
}

/// The detector that reports a section, and the section's place there.
fn reporter_of(detectors: &[Detector], section: usize) -> Option<(usize, usize)>
    ensures some { IfSome result (IsReportedIn detectors.now section) }
    ensures none { IfNone result (NoneReports detectors.now section) }
{
    for (index, detector) in detectors.iter().enumerate() {
        if let Some(place) = place_of(detector.sections(), section) {
            return Some((index, place));
        }
    }
    None
}

/// Where each section of a table is reported.
pub(crate) fn reporters_of(
    alloc: Global,
    table: &Checked,
) -> Result<Vec<(usize, usize)>, AllocError>
    ensures { IfOk result (λ v. AreReporters table.now v.items) }
{
    let layout = table.layout();
    let mut reporters = Vec::new(alloc);
    for section in 0..layout.sections().len() {
        reporters.push(reporter_of(layout.detectors(), section).unwrap())?;
    }
    Ok(reporters)
}

/// The sections of each detector.
pub(crate) fn reported_by(
    alloc: Global,
    detectors: &[Detector],
) -> Result<Vec<Vec<usize>>, AllocError>
    ensures { IfOk result (λ v. map (λ sections. map as_section sections.items) v.items ≡ map (λ (detector : DetectorEntry). detector.sections) detectors.now) }
{
    let mut lists = Vec::new(alloc);
    for detector in detectors {
        lists.push(section_numbers(alloc, detector.sections())?)?;
    }
    Ok(lists)
}

/// The section of each point.
pub(crate) fn sections_of(alloc: Global, points: &[Point]) -> Result<Vec<usize>, AllocError>
    ensures { IfOk result (λ v. map as_section v.items ≡ map (λ point. point.section) points.now) }
{
    let mut sections = Vec::new(alloc);
    for point in points {
        sections.push(point.section.0)?;
    }
    Ok(sections)
}
