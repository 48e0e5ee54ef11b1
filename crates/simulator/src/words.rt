//! The words of a picture.

ghost use Rattle.std.specs.Prelude.{◌≡◌};
ghost use Rattle.simulator_spec.specs.Picture.{authority_text, driven_text, route_name, safe_text, set_text};

use simulator_spec::{Held, Layout, RouteId, Side};

/// What stands after the position of a point that is driven.
pub(crate) fn driven_words(driven: Option<Side>) -> &'static str
    ensures { result.now ≡ driven_text driven }
{
    match driven {
        None => "",
        Some(Side::Right) => " driven right",
        Some(Side::Left) => " driven left",
    }
}

/// The word of a route's state.
pub(crate) fn set_word(is_set: bool) -> &'static str
    ensures { result.now ≡ set_text is_set }
{
    if is_set { "set" } else { "free" }
}

/// The last word of a picture.
pub(crate) fn safe_word(is_safe: bool) -> &'static str
    ensures { result.now ≡ safe_text is_safe }
{
    if is_safe { "safe" } else { "unsafe" }
}

/// The name of a route, and a hyphen where the layout lacks it.
fn route_name(layout: &Layout, route: RouteId) -> &str
    ensures { result.now ≡ route_name route.0 layout.now.routes }
{
    match layout.routes().get(route.0) {
        Some(route) => route.name().as_str(),
        None => "-",
    }
}

/// The name of the first route that is held for a signal, and a hyphen where there is none.
#[tactic(auto, using(crate::proofs::Lines::authority_past, crate::proofs::Lines::authority_found, crate::proofs::Lines::authority_none))]
pub(crate) fn authority<'a>(layout: &'a Layout, held: &[Held], signal: usize) -> &'a str
    ensures { result.now ≡ authority_text layout.now signal held.now }
{
    for place in 0..held.len() {
        let one = held[place];
        if one.signal.0 == signal {
            return route_name(layout, one.route);
        }
    }
    "-"
}
