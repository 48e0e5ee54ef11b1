//! The elements and sections of a path, each of which comes once.

ghost use Rattle.std.specs.Prelude.{◌≡◌, IfOk};
ghost use Rattle.std.specs.List.{dedup, filter_map};
ghost use Rattle.control_table.specs.Topology.{section_of};
ghost use Rattle.control_table.specs.Path.{elements, same_section};
ghost use Rattle.control_table.specs.inside.TableTests.{is_element, all_different};

use crate::passage::Passage;
use crate::topology::section_of;
use layout::{Element, Layout, SectionId};
use std::alloc::{AllocError, Global};

/// The elements of a path, in its order.
pub(crate) fn elements(alloc: Global, path: &[Passage]) -> Result<Vec<Element>, AllocError>
    ensures { IfOk result (λ v. v.items ≡ elements path.now) }
{
    path.iter()
        .map(|passage| passage.left.element)
        .collect(alloc)
}

/// The sections of elements, in their order.
fn each_section(
    alloc: Global,
    layout: &Layout,
    elements: &[Element],
) -> Result<Vec<SectionId>, AllocError>
    ensures { IfOk result (λ v. v.items ≡ filter_map (section_of layout.now) elements.now) }
{
    elements
        .iter()
        .filter_map(|element| section_of(layout, *element))
        .collect(alloc)
}

/// The sections of a path's elements, in its order, of which neighbours that are equal count once.
pub(crate) fn sections(
    alloc: Global,
    layout: &Layout,
    elements: &[Element],
) -> Result<Vec<SectionId>, AllocError>
    ensures { IfOk result (λ v. v.items ≡ dedup same_section (filter_map (section_of layout.now) elements.now)) }
{
    let mut sections = each_section(alloc, layout, elements)?;
    sections.dedup();
    Ok(sections)
}

/// Whether no item of a list comes twice.
fn all_different<T: Eq>(items: &[T]) -> bool
    ensures { result ≡ all_different T.eq items.now }
{
    let mut rest = items;
    while let Some((item, others)) = rest.split_first() {
        if others.contains(item) {
            return false;
        }
        rest = others;
    }
    true
}

/// Whether no element comes twice.
#[tactic(auto, unfolding(crate::specs::inside::TableTests::is_element))]
pub(crate) fn elements_differ(elements: &[Element]) -> bool
    ensures { result ≡ all_different is_element elements.now }
{
    all_different(elements)
}

/// Whether no section comes twice.
pub(crate) fn sections_differ(sections: &[SectionId]) -> bool
    ensures { result ≡ all_different same_section sections.now }
{
    all_different(sections)
}
