//! A text with the routes that its table lacks.

ghost use Rattle.std.specs.Prelude.{◌≡◌, IfOk, IfSome, IsTrue, None, option_copied, true};
ghost use Rattle.table_review.specs.Asked.{AreAsked};
ghost use Rattle.table_review.specs.Completed.{IsComplete, IsCompleted, LacksNone, piece};
ghost use Rattle.table_review.specs.Places.{IsSpot, has_byte};

use crate::asked::{Asked, Lacking, lacking_of};
use crate::block::routes_in;
use crate::fault::ReviewFault;
use crate::insertion::with_insertion;
use crate::places::{
    Spot, array_end, before_routes, behind_routes, block_spot, form_at, item_spot, place_of,
};
use crate::same_routes::are_completed;
use layout_text::LayoutFault;
use std::alloc::{AllocError, Global};

/// A text that has the routes that its table lacked, and how many these are.
#[derive(Drop)]
pub struct Completed {
    pub text: Vec<u8>,
    pub routes: usize,
}

/// What is put into a text at a spot.
fn piece_at(alloc: Global, text: &[u8], found: &Lacking, spot: Spot) -> Result<Vec<u8>, AllocError>
    ensures { IfOk result (λ v. v.items ≡ piece text.now found.now.table found.now.routes.items spot) }
{
    let routes = routes_in(alloc, found.table.layout(), &found.routes, form_at(spot))?;
    let mut piece = Vec::from_slice(alloc, before_routes(text, spot).as_bytes())?;
    piece.extend_from_slice(&routes)?;
    piece.extend_from_slice(behind_routes(spot).as_bytes())?;
    Ok(piece)
}

/// What a new text lacks; none where the spot isn't one for routes. That there are too many is a fault of its own.
fn lacking_in(alloc: Global, new: &Asked<'_>) -> Result<Option<Lacking>, ReviewFault>
    ensures { IfOk result (λ o. IfSome o (λ found. AreAsked new.now found.table found.routes.items)) }
{
    match lacking_of(alloc, new) {
        Ok(found) => Ok(Some(found)),
        Err(ReviewFault::Layout(LayoutFault::Limit(place))) => {
            Err(ReviewFault::Layout(LayoutFault::Limit(place)))
        }
        Err(ReviewFault::Layout(LayoutFault::OutOfMemory)) => Err(ReviewFault::OutOfMemory),
        Err(ReviewFault::OutOfMemory) => Err(ReviewFault::OutOfMemory),
        Err(_) => Ok(None),
    }
}

/// Whether a new text is a layout whose table is sound, has the routes of the old one and behind them those that it
/// lacked, and lacks none any more.
fn is_completed(alloc: Global, new: &Asked<'_>, old: &Lacking) -> Result<bool, ReviewFault>
    ensures { IfOk result (λ b. b ≡ true → LacksNone new.now.text.now (option_copied new.now.from) new.now.rule) }
{
    let Some(found) = lacking_in(alloc, new)? else {
        return Ok(false);
    };
    if !found.routes.is_empty() {
        return Ok(false);
    }
    let routes = found.table.layout().routes();
    Ok(are_completed(routes, old.table.layout().routes(), &old.routes))
}

/// Whether a new text is completed, where it is one.
fn completes(
    alloc: Global,
    asked: &Asked<'_>,
    new: &[u8],
    old: &Lacking,
) -> Result<bool, ReviewFault>
    ensures { IfOk result (λ b. b ≡ true → LacksNone new.now (option_copied asked.now.from) asked.now.rule) }
{
    let Ok(text) = str::from_utf8(new) else {
        return Ok(false);
    };
    let Asked { from, rule, .. } = *asked;
    is_completed(alloc, &Asked { text, from, rule }, old)
}

/// A text with the routes put into it at a spot, if that is one for them.
fn completed_at(
    alloc: Global,
    asked: &Asked<'_>,
    found: &Lacking,
    spot: Spot,
) -> Result<Option<Vec<u8>>, ReviewFault>
    requires { IsSpot asked.now.text.now spot }
    ensures { IfOk result (λ o. IfSome o (λ new. IsComplete asked.now found.now.table found.now.routes.items new.items)) }
{
    let text = asked.text.as_bytes();
    let piece = piece_at(alloc, text, found, spot)?;
    let Some(new) = with_insertion(alloc, text, place_of(text, spot), &piece)? else {
        return Ok(None);
    };
    if completes(alloc, asked, &new, found)? {
        Ok(Some(new))
    } else {
        Ok(None)
    }
}

/// A text with the routes put into it before a bracket, if that closes the array of its routes.
fn completed_before(
    alloc: Global,
    asked: &Asked<'_>,
    found: &Lacking,
    bracket: usize,
) -> Result<Option<Vec<u8>>, ReviewFault>
    requires { IsTrue (has_byte asked.now.text.now bracket 93) }
    ensures { IfOk result (λ o. IfSome o (λ new. IsComplete asked.now found.now.table found.now.routes.items new.items)) }
{
    let text = asked.text.as_bytes();
    match completed_at(alloc, asked, found, item_spot(text, bracket, false))? {
        Some(new) => Ok(Some(new)),
        None => completed_at(alloc, asked, found, item_spot(text, bracket, true)),
    }
}

/// A text with the routes put into the array of its routes, if it has one.
fn completed_in_array(
    alloc: Global,
    asked: &Asked<'_>,
    found: &Lacking,
) -> Result<Option<Vec<u8>>, ReviewFault>
    ensures { IfOk result (λ o. IfSome o (λ new. IsComplete asked.now found.now.table found.now.routes.items new.items)) }
{
    match array_end(asked.text.as_bytes()) {
        Some(bracket) => completed_before(alloc, asked, found, bracket),
        None => Ok(None),
    }
}

/// A text with the routes put into it: into the array of its routes, or else as blocks.
fn completed_somewhere(
    alloc: Global,
    asked: &Asked<'_>,
    found: &Lacking,
) -> Result<Vec<u8>, ReviewFault>
    ensures { IfOk result (λ new. IsComplete asked.now found.now.table found.now.routes.items new.items) }
{
    if let Some(new) = completed_in_array(alloc, asked, found)? {
        return Ok(new);
    }
    match completed_at(alloc, asked, found, block_spot(asked.text.as_bytes()))? {
        Some(new) => Ok(new),
        None => Err(ReviewFault::NoPlace),
    }
}

/// The text of a layout with the routes that its table lacks of those that are asked for; none where it lacks none. They
/// are put into it at one place, and all else stands as it stood. It is answered only where it was read, its table is
/// sound, has the routes of the old one and behind them those that were lacking, and lacks none any more.
pub fn completed_text(alloc: Global, asked: &Asked<'_>) -> Result<Option<Completed>, ReviewFault>
    ensures completed { IfOk result (λ o. IfSome o (λ new. IsCompleted asked.now new.text.items)) }
    ensures none { IfOk result (λ o. o ≡ None → LacksNone asked.now.text.now (option_copied asked.now.from) asked.now.rule) }
{
    let found = lacking_of(alloc, asked)?;
    if found.routes.is_empty() {
        return Ok(None);
    }
    let text = completed_somewhere(alloc, asked, &found)?;
    let routes = found.routes.len();
    Ok(Some(Completed { text, routes }))
}
