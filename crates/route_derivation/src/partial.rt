//! A way that hasn't come to its end yet, and how it goes on.

ghost use Rattle.std.specs.Prelude.{◌≡◌, IfOk, OnOk, ◌++◌, ◌∷◌, []};
ghost use Rattle.control_table.specs.Path.{same_section};
ghost use Rattle.route_derivation.specs.inside.WaySearch.{holds_section, is_last, used, flank_at, holds_element, section_may_come, with_section, with_need, sides_go, may_go, longer, start};

use crate::passage::Passage;
use crate::sides::{flank_at, is_open, is_opposed, used};
use crate::topology::{is_element, section_of};
use control_table::layout::{Element, Layout, PointId, SectionId};
use control_table::sci_telegram::Side;
use std::alloc::{AllocError, Global};
use std::marker::Model;

/// Whether a way is judged by what it requires, its passages so far, its sections, of which neighbours
/// that are equal count once, and the points that it requires, each with its side.
#[derive(Drop)]
pub(crate) struct Partial {
    pub(crate) judged: bool,
    pub(crate) passages: Vec<Passage>,
    pub(crate) sections: Vec<SectionId>,
    pub(crate) needs: Vec<(PointId, Side)>,
}

impl Model for Partial {
    ghost use Rattle.route_derivation.specs.inside.WaySearch as search;

    ghost Value = { search.Partial };

    ghost view = { λ p. record { judged = p.judged; passages = p.passages.items; sections = p.sections.items; needs = p.needs.items } };
}

/// Whether two sections are the same.
fn same_section(one: SectionId, other: SectionId) -> bool
    ensures { result ≡ same_section one other }
{
    one.0 == other.0
}

/// Whether passages lead over an element.
fn holds_element(passages: &[Passage], element: Element) -> bool
    ensures { result ≡ holds_element passages.now element }
{
    passages
        .iter()
        .any(|passage| is_element(passage.left.element, element))
}

/// Whether a section stands in a list.
fn holds_section(sections: &[SectionId], section: SectionId) -> bool
    ensures { result ≡ holds_section sections.now section }
{
    sections.iter().any(|one| same_section(*one, section))
}

/// Whether a section is the last of a list.
fn is_last(sections: &[SectionId], section: SectionId) -> bool
    ensures { result ≡ is_last sections.now section }
{
    match sections.last() {
        Some(last) => same_section(section, *last),
        None => false,
    }
}

/// Whether a way may go on into a section: it lies in this section already, or hasn't come to it yet.
fn section_may_come(sections: &[SectionId], section: Option<SectionId>) -> bool
    ensures { result ≡ section_may_come sections.now section }
{
    match section {
        Some(section) => is_last(sections, section) || !holds_section(sections, section),
        None => true,
    }
}

/// Whether a passage leaves no leg open, and requires no point that is required at the other side.
fn sides_go(layout: &Layout, needs: &[(PointId, Side)], passage: &Passage) -> bool
    ensures { result ≡ sides_go layout.now needs.now passage.now }
{
    !is_open(layout, passage)
        && !is_opposed(needs, used(passage))
        && !is_opposed(needs, flank_at(layout, passage))
}

/// Whether a way may go on by a passage: over no element again, and into no section again that it has
/// left. One that is judged leaves no leg open, and requires no point at both sides.
#[tactic(auto, unfolding(crate::specs::inside::WaySearch::may_go))]
pub(crate) fn may_go(layout: &Layout, before: &Partial, passage: &Passage) -> bool
    ensures { result ≡ may_go layout.now before.now passage.now }
{
    let element = passage.left.element;
    !holds_element(&before.passages, element)
        && section_may_come(&before.sections, section_of(layout, element))
        && (!before.judged || sides_go(layout, &before.needs, passage))
}

/// The passages with one more.
fn with_passage(
    alloc: Global,
    passages: &[Passage],
    passage: Passage,
) -> Result<Vec<Passage>, AllocError>
    ensures { IfOk result (λ v. v.items ≡ passages.now ++ passage ∷ []) }
{
    let mut longer = Vec::from_slice(alloc, passages)?;
    longer.push(passage)?;
    Ok(longer)
}

/// The sections of a way that goes on into a section.
fn with_section(
    alloc: Global,
    sections: &[SectionId],
    section: Option<SectionId>,
) -> Result<Vec<SectionId>, AllocError>
    ensures { IfOk result (λ v. v.items ≡ with_section sections.now section) }
{
    let mut longer = Vec::from_slice(alloc, sections)?;
    if let Some(section) = section {
        if !is_last(sections, section) {
            longer.push(section)?;
        }
    }
    Ok(longer)
}

/// Puts what a passage requires at the end of a list.
fn add_need(
    needs: &mut Vec<(PointId, Side)>,
    need: Option<(PointId, Side)>,
) -> Result<(), AllocError>
    ensures { OnOk result (needs.new.items ≡ with_need needs.old.items need) }
{
    if let Some(need) = need {
        needs.push(need)?;
    }
    Ok(())
}

/// What a way requires that goes on by a passage.
fn with_needs(
    alloc: Global,
    layout: &Layout,
    needs: &[(PointId, Side)],
    passage: &Passage,
) -> Result<Vec<(PointId, Side)>, AllocError>
    ensures { IfOk result (λ v. v.items ≡ with_need (with_need needs.now (used passage.now)) (flank_at layout.now (used passage.now))) }
{
    let mut longer = Vec::from_slice(alloc, needs)?;
    add_need(&mut longer, used(passage))?;
    add_need(&mut longer, flank_at(layout, passage))?;
    Ok(longer)
}

impl Partial {
    /// A way that hasn't begun.
    #[tactic(auto, unfolding(crate::specs::inside::WaySearch::start))]
    pub(crate) fn new(alloc: Global, judged: bool) -> Partial
        ensures { result ≡ start judged }
    {
        Partial {
            judged,
            passages: Vec::new(alloc),
            sections: Vec::new(alloc),
            needs: Vec::new(alloc),
        }
    }

    /// The way, gone on by a passage.
    #[tactic(auto, unfolding(crate::specs::inside::WaySearch::longer))]
    pub(crate) fn longer(
        &self,
        alloc: Global,
        layout: &Layout,
        passage: Passage,
    ) -> Result<Partial, AllocError>
        ensures { IfOk result (λ p. p ≡ longer layout.now self.now passage) }
    {
        let passages = with_passage(alloc, &self.passages, passage)?;
        let section = section_of(layout, passage.left.element);
        let sections = with_section(alloc, &self.sections, section)?;
        let needs = with_needs(alloc, layout, &self.needs, &passage)?;
        Ok(Partial {
            judged: self.judged,
            passages,
            sections,
            needs,
        })
    }
}
