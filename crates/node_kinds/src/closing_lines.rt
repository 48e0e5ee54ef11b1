//! What is closed that wasn't, and the line about what isn't kept.

ghost use Rattle.std.specs.Prelude.{◌≡◌, ◌++◌, ◌∷◌, [], filter, not, IfOk, OnOk, string_bytes};
ghost use Rattle.node_kinds.specs.Kept.{newly, not_kept_text};
ghost use Rattle.simulator_spec.specs.ixl_spec.closings.Closed.{is_closed};

use node_drive::{Closings, Named, Thing};
use simulator_spec::Layout;
use std::alloc::{AllocError, Global};

/// What stands before the words of what isn't kept.
const NOT_KEPT: &str = "not kept ";

/// That what a command names isn't kept.
pub(crate) fn not_kept_line(
    alloc: Global,
    layout: &Layout,
    named: Named,
) -> Result<String, AllocError>
    ensures { IfOk result (λ line. string_bytes line ≡ not_kept_text layout.now named) }
{
    let mut line = String::from_str(alloc, NOT_KEPT)?;
    named.write(layout, &mut line)?;
    Ok(line)
}

/// A thing is added, unless it was closed before.
fn add_unless_before(
    things: &mut Vec<Thing>,
    before: &Closings,
    thing: Thing,
) -> Result<(), AllocError>
    ensures { OnOk result (things.new.items ≡ things.old.items ++ filter (λ t. not (is_closed before.now t)) (thing ∷ [])) }
{
    if !before.is_closed(thing) {
        things.push(thing)?;
    }
    Ok(())
}

/// The things that are closed now and weren't before.
pub(crate) fn newly(
    alloc: Global,
    layout: &Layout,
    before: &Closings,
    now: &Closings,
) -> Result<Vec<Thing>, AllocError>
    ensures { IfOk result (λ things. things.items ≡ newly layout.now before.now now.now) }
{
    let closed = now.things(alloc, layout)?;
    let mut things = Vec::new(alloc);
    for thing in &closed {
        add_unless_before(&mut things, before, *thing)?;
    }
    Ok(things)
}
