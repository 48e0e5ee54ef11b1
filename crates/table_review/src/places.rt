//! Where routes may be put into a text. Whether they may is found by reading what comes of it.

ghost use Rattle.std.specs.Prelude.{◌≡◌, ◌≤◌, IfSome, IsTrue, drop, length};
ghost use Rattle.table_review.specs.Places as places;
ghost use Rattle.table_review.specs.declared.places.Spot.TheVariants.{Drawing};

use crate::block::Form;

/// A place in a text at which routes may be put.
#[derive(Clone, Copy)]
pub(crate) enum Spot {
    /// As blocks, at the end of the text.
    End,
    /// As blocks, before the line with the table `drawing`.
    Drawing(usize),
    /// As items, before the line in which only blanks stand before a bracket, which closes an array: where this line
    /// begins, where the bracket stands, and whether a comma is needed before them.
    Line(usize, usize, bool),
    /// As items, before a bracket that closes an array: where it stands, and whether a comma is needed before them.
    Bracket(usize, bool),
}

/// The place itself.
pub(crate) fn place_of(text: &[u8], spot: Spot) -> usize
    ensures { result ≡ places.place_of text.now spot }
{
    match spot {
        Spot::End => text.len(),
        Spot::Drawing(at) => at,
        Spot::Line(at, _, _) => at,
        Spot::Bracket(at, _) => at,
    }
}

/// In which form routes stand there.
pub(crate) fn form_at(spot: Spot) -> Form
    ensures { result ≡ places.form_at spot }
{
    match spot {
        Spot::End => Form::Block,
        Spot::Drawing(_) => Form::Block,
        Spot::Line(_, _, _) => Form::Item,
        Spot::Bracket(_, _) => Form::Item,
    }
}

/// What stands between the text before them and the routes.
pub(crate) fn before_routes(text: &[u8], spot: Spot) -> &'static str
    ensures { result.now ≡ places.before_routes text.now spot }
{
    match spot {
        Spot::End if begins_line(text, text.len()) => "",
        Spot::End => "\n",
        Spot::Drawing(_) => "",
        Spot::Line(_, _, true) => "  ,\n",
        Spot::Line(_, _, false) => "",
        Spot::Bracket(_, true) => ",\n",
        Spot::Bracket(_, false) => "\n",
    }
}

/// What stands between the routes and the text behind them.
pub(crate) fn behind_routes(spot: Spot) -> &'static str
    ensures { result.now ≡ places.behind_routes spot }
{
    match spot {
        Spot::End => "",
        Spot::Drawing(_) => "\n",
        Spot::Line(_, _, _) => "",
        Spot::Bracket(_, _) => "",
    }
}

/// Whether a byte stands at a place.
fn has_byte(text: &[u8], at: usize, byte: u8) -> bool
    ensures { result ≡ places.has_byte text.now at byte }
{
    match text.get(at).copied() {
        Some(found) => found == byte,
        None => false,
    }
}

/// Whether a blank stands at a place.
fn has_blank(text: &[u8], at: usize) -> bool
    ensures { result ≡ places.has_blank text.now at }
{
    has_byte(text, at, b' ') || has_byte(text, at, b'\t')
}

/// Whether only blanks stand from one place to another.
fn are_blanks(text: &[u8], from: usize, to: usize) -> bool
    ensures { IsTrue result → places.AreBlanks text.now from to }
{
    for at in from..to {
        if !has_blank(text, at) {
            return false;
        }
    }
    true
}

/// Whether a line begins at a place.
fn begins_line(text: &[u8], at: usize) -> bool
    ensures { result ≡ places.begins_line text.now at }
{
    at == 0 || has_byte(text, at - 1, b'\n')
}

/// The text from a place on.
fn rest(text: &[u8], at: usize) -> &[u8]
    requires { at ≤ length text.now }
    ensures { result.now ≡ drop at text.now }
{
    text.split_at(at).1
}

/// Whether a line begins the table `drawing`.
fn is_drawing(line: &[u8]) -> bool
    ensures { result ≡ places.is_drawing line.now }
{
    line.starts_with(b"[drawing]")
}

/// The first line that begins the table `drawing`.
fn drawing(text: &[u8]) -> Option<usize>
    ensures { IfSome result (λ at. places.IsSpot text.now (Drawing at)) }
{
    for at in 0..text.len() {
        if begins_line(text, at) && is_drawing(rest(text, at)) {
            return Some(at);
        }
    }
    None
}

/// The place for blocks: before the table `drawing`, or at the end.
pub(crate) fn block_spot(text: &[u8]) -> Spot
    ensures { places.IsSpot text.now result }
{
    match drawing(text) {
        Some(at) => Spot::Drawing(at),
        None => Spot::End,
    }
}

/// Where the line of a place begins.
fn line_of(text: &[u8], at: usize) -> Option<usize>
    ensures { IfSome result (λ start. IsTrue (places.begins_line text.now start)) }
{
    for before in 0..=at {
        let start = at.saturating_sub(before);
        if begins_line(text, start) {
            return Some(start);
        }
    }
    None
}

/// The place for items before a bracket that closes an array: before its line, where only blanks stand before it there.
pub(crate) fn item_spot(text: &[u8], bracket: usize, comma: bool) -> Spot
    requires { IsTrue (places.has_byte text.now bracket 93) }
    ensures { places.IsSpot text.now result }
{
    match line_of(text, bracket) {
        Some(start) if are_blanks(text, start, bracket) => Spot::Line(start, bracket, comma),
        _ => Spot::Bracket(bracket, comma),
    }
}

/// A text without the blanks before it.
fn without_blanks(text: &[u8]) -> &[u8] {
    for at in 0..text.len() {
        if !has_blank(text, at) {
            return rest(text, at);
        }
    }
    &[]
}

/// Whether a line gives the key `route` a value.
fn is_routes_key(line: &[u8]) -> bool {
    match without_blanks(line).strip_prefix(b"route") {
        Some(behind) => has_byte(without_blanks(behind), 0, b'='),
        None => false,
    }
}

/// The first line that gives the key `route` a value.
fn routes_key(text: &[u8]) -> Option<usize> {
    for at in 0..text.len() {
        if begins_line(text, at) && is_routes_key(rest(text, at)) {
            return Some(at);
        }
    }
    None
}

/// What the next byte of a value stands in.
#[derive(Clone, Copy)]
enum Inside {
    Brackets,
    Comment,
    Text,
    Escape,
    Literal,
}

/// How far a value was read: how many brackets are open, and what the next byte stands in.
#[derive(Clone, Copy)]
struct Reading {
    open: usize,
    inside: Inside,
}

/// What a byte leads to that stands in no comment and no text.
fn between_brackets(open: usize, byte: u8) -> Reading {
    let (open, inside) = match byte {
        b'[' | b'{' => (open.saturating_add(1), Inside::Brackets),
        b']' | b'}' => (open.saturating_sub(1), Inside::Brackets),
        b'#' => (open, Inside::Comment),
        b'"' => (open, Inside::Text),
        b'\'' => (open, Inside::Literal),
        _ => (open, Inside::Brackets),
    };
    Reading { open, inside }
}

/// What a byte leads to that stands in a comment or in a text.
fn behind_byte(inside: Inside, byte: u8) -> Inside {
    match (inside, byte) {
        (Inside::Comment, b'\n') => Inside::Brackets,
        (Inside::Text, b'"') => Inside::Brackets,
        (Inside::Literal, b'\'') => Inside::Brackets,
        (Inside::Text, b'\\') => Inside::Escape,
        (Inside::Escape, _) => Inside::Text,
        (other, _) => other,
    }
}

/// What the next byte leads to.
fn with_byte(reading: Reading, byte: u8) -> Reading {
    let Reading { open, inside } = reading;
    match inside {
        Inside::Brackets => between_brackets(open, byte),
        other => Reading {
            open,
            inside: behind_byte(other, byte),
        },
    }
}

/// Whether the next byte stands in no comment and no text, and one bracket is open before it.
fn is_in_one(reading: Reading) -> bool {
    matches!(reading.inside, Inside::Brackets) && reading.open == 1
}

/// The bracket that closes the array `route`.
pub(crate) fn array_end(text: &[u8]) -> Option<usize>
    ensures { IfSome result (λ at. IsTrue (places.has_byte text.now at 93)) }
{
    let mut reading = Reading {
        open: 0,
        inside: Inside::Brackets,
    };
    let key = routes_key(text)?;
    for at in key..text.len() {
        if is_in_one(reading) && has_byte(text, at, b']') {
            return Some(at);
        }
        reading = with_byte(reading, text[at]);
    }
    None
}
