//! What a plan draws above its detection controllers, in table order, and where it stands.

ghost use Rattle.std.specs.Prelude.{◌≡◌, ◌++◌, ◌∷◌, [], map, OnOk};
ghost use Rattle.std.specs.List.{flat_map};
ghost use Rattle.station_plan.specs.Subjects.{border_subject, detector_subject, joint_subjects, point_subjects, section_subject, signal_subject, subjects, track_subject};
ghost use Rattle.station_plan.specs.inside.Placing.{subjects_at};

use crate::numbers::Numbers;
use crate::subjects::{element_name, same_section, section_of};
use crate::thing::Subject;
use crate::yard::Place;
use control_table::layout::{End, Joint, Point, Signal, Track};
use control_table::{Layout, Name};
use std::alloc::AllocError;

/// What is to be drawn of one subject.
#[derive(Clone, Copy)]
pub(crate) struct Placed {
    /// What it stands for.
    pub(crate) subject: Subject,
    /// Its number in its table.
    pub(crate) number: usize,
    /// Where it stands.
    pub(crate) at: Place,
}

/// The place of what has no port.
pub(crate) const NO_PORT: Place = Place {
    element: 0,
    end: End::A,
};

fn place(
    placed: &mut Vec<Placed>,
    subject: Subject,
    number: usize,
    element: usize,
    end: End,
) -> Result<(), AllocError>
    ensures { OnOk result (subjects_at placed.new.items ≡ subjects_at placed.old.items ++ subject ∷ []) }
{
    placed.push(Placed {
        subject,
        number,
        at: Place { element, end },
    })?;
    Ok(())
}

fn place_sections(placed: &mut Vec<Placed>, sections: &[Name]) -> Result<(), AllocError>
    ensures { OnOk result (subjects_at placed.new.items ≡ subjects_at placed.old.items ++ map section_subject sections.now) }
{
    for (number, name) in sections.iter().enumerate() {
        place(placed, Subject::Section(*name), number, 0, End::A)?;
    }
    Ok(())
}

fn place_tracks(placed: &mut Vec<Placed>, tracks: &[Track]) -> Result<(), AllocError>
    ensures { OnOk result (subjects_at placed.new.items ≡ subjects_at placed.old.items ++ map track_subject tracks.now) }
{
    for (number, track) in tracks.iter().enumerate() {
        place(placed, Subject::Track(track.name), number, number, End::A)?;
    }
    Ok(())
}

/// Places points: of each its name, its tip and its two legs.
fn place_points(
    placed: &mut Vec<Placed>,
    numbers: Numbers,
    points: &[Point],
) -> Result<(), AllocError>
    ensures { OnOk result (subjects_at placed.new.items ≡ subjects_at placed.old.items ++ flat_map point_subjects points.now) }
{
    for (number, point) in points.iter().enumerate() {
        let name = point.name;
        let element = numbers.point(number);
        place(placed, Subject::Point(name), number, element, End::Tip)?;
        place(placed, Subject::Tip(name), number, element, End::Tip)?;
        place(placed, Subject::Left(name), number, element, End::Left)?;
        place(placed, Subject::Right(name), number, element, End::Right)?;
    }
    Ok(())
}

fn place_borders(
    placed: &mut Vec<Placed>,
    numbers: Numbers,
    borders: &[Name],
) -> Result<(), AllocError>
    ensures { OnOk result (subjects_at placed.new.items ≡ subjects_at placed.old.items ++ map border_subject borders.now) }
{
    for (number, name) in borders.iter().enumerate() {
        let element = numbers.border(number);
        place(placed, Subject::Border(*name), number, element, End::End)?;
    }
    Ok(())
}

/// Places a joint, if it parts two sections.
fn place_joint(
    placed: &mut Vec<Placed>,
    numbers: Numbers,
    layout: &Layout,
    joint: Joint,
) -> Result<(), AllocError>
    ensures { OnOk result (subjects_at placed.new.items ≡ subjects_at placed.old.items ++ joint_subjects layout.now joint) }
{
    let before = section_of(layout, joint.first.element);
    let behind = section_of(layout, joint.second.element);
    if same_section(before, behind) {
        return Ok(());
    }
    match element_name(layout, joint.first.element) {
        Some(name) => {
            let subject = Subject::Joint(name, joint.first.end);
            let at = numbers.place(joint.first);
            place(placed, subject, 0, at.element, at.end)
        }
        None => Ok(()),
    }
}

fn place_joints(
    placed: &mut Vec<Placed>,
    numbers: Numbers,
    layout: &Layout,
    joints: &[Joint],
) -> Result<(), AllocError>
    ensures { OnOk result (subjects_at placed.new.items ≡ subjects_at placed.old.items ++ flat_map (joint_subjects layout.now) joints.now) }
{
    for joint in joints {
        place_joint(placed, numbers, layout, *joint)?;
    }
    Ok(())
}

fn place_signals(
    placed: &mut Vec<Placed>,
    numbers: Numbers,
    signals: &[Signal],
) -> Result<(), AllocError>
    ensures { OnOk result (subjects_at placed.new.items ≡ subjects_at placed.old.items ++ map signal_subject signals.now) }
{
    for (number, signal) in signals.iter().enumerate() {
        let at = numbers.place(signal.at);
        place(
            placed,
            Subject::Signal(signal.name),
            number,
            at.element,
            at.end,
        )?;
    }
    Ok(())
}

/// Places all that a plan draws above its detection controllers.
pub(crate) fn place_all(
    placed: &mut Vec<Placed>,
    numbers: Numbers,
    layout: &Layout,
) -> Result<(), AllocError>
    requires { placed.old.items ≡ [] }
    ensures { OnOk result (subjects_at placed.new.items ++ map detector_subject layout.now.detectors ≡ subjects layout.now) }
{
    place_sections(placed, layout.sections())?;
    place_tracks(placed, layout.tracks())?;
    place_points(placed, numbers, layout.points())?;
    place_borders(placed, numbers, layout.borders())?;
    place_joints(placed, numbers, layout, layout.joints())?;
    place_signals(placed, numbers, layout.signals())
}
