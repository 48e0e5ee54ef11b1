//! Things as groups of a picture.

ghost use Rattle.std.specs.Prelude.{◌≡◌, [], IfOk, OnOk, string_bytes};
ghost use Rattle.std.specs.List.{AllZip};
ghost use Rattle.station_plan.specs.Plan.{AreGroupsOf, Shows, notes_id};

use crate::subjects::{end_word, words_of};
use crate::thing::Thing;
use drawing::{Group, Mark};
use std::alloc::{AllocError, Global};
use std::mem::replace;

/// A thing as a group, to which it hands its marks over. Its class has the words of its kind and of its identity, how it is
/// marked, and what is seen of it.
fn group(alloc: Global, thing: &mut Thing) -> Result<Group, AllocError>
    ensures { IfOk result (λ group. Shows thing.old group) }
{
    let (kind, name) = words_of(&thing.subject);
    let name = name.as_str();
    let end = end_word(&thing.subject);
    let id = format!(in alloc; "{kind}.{name}{end}")?;
    let class = format!(in alloc; "{kind} {id}{}{}", thing.marked, thing.state)?;
    let title = format!(in alloc; "{kind} {name}{end}")?;
    thing.marks.append(&mut thing.more)?;
    let marks = replace(&mut thing.marks, Vec::new(alloc));
    Ok(Group {
        id,
        class,
        title,
        marks,
    })
}

/// Adds things as groups, in order, to a list that is empty.
#[tactic(auto, using(crate::proofs::GroupsMade::one_more))]
fn add_groups(groups: &mut Vec<Group>, alloc: Global, things: Vec<Thing>) -> Result<(), AllocError>
    requires { groups.old.items ≡ [] }
    ensures { OnOk result (AllZip Shows things.items groups.new.items) }
{
    for mut thing in things {
        let group = group(alloc, &mut thing);
        drop(thing);
        groups.push(group?)?;
    }
    Ok(())
}

/// Adds things as groups, in order, and after them what is written below the plan, to a list that is empty.
pub(crate) fn add_all(
    groups: &mut Vec<Group>,
    alloc: Global,
    things: Vec<Thing>,
    notes: Vec<Mark>,
) -> Result<(), AllocError>
    requires { groups.old.items ≡ [] }
    ensures { OnOk result (AreGroupsOf things.items groups.new.items) }
{
    add_groups(groups, alloc, things)?;
    let id = String::from_str(alloc, "notes")?;
    let class = String::from_str(alloc, "notes")?;
    let title = String::from_str(alloc, "notes")?;
    groups.push(Group {
        id,
        class,
        title,
        marks: notes,
    })?;
    Ok(())
}
