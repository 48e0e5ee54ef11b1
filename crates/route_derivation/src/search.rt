//! The search for all ways that begin at a signal.

ghost use Rattle.std.specs.Prelude.{◌≡◌, ◌++◌, ◌∷◌, [], length, false, IfOk, Err};
ghost use Rattle.control_table.specs.layout.Once.{Once};
ghost use Rattle.control_table.specs.layout.Station.{IsStation};
ghost use Rattle.route_derivation.specs.Impossible.{ManyWaysFrom};
ghost use Rattle.route_derivation.specs.Ways.{AreRouteWays, TooManyWays};
ghost use Rattle.route_derivation.specs.declared.fault.Underived.TheVariants.{TooMany};
ghost use Rattle.route_derivation.specs.inside.WaySearch.{Adds, Finds, comes_to, beyond_joint, ways_over, ways_behind, ways_from, is_asked, ways_asked, ways_below};

use crate::fault::Underived;
use crate::partial::{Partial, may_go};
use crate::passage::{Passage, first_out, second_out};
use crate::topology::{joined_to, port_of, signal_at};
use control_table::layout::{Element, Exit, Layout, Port, SignalId};
use std::alloc::Global;
use std::marker::Model;

/// How many routes a table has at most.
pub(crate) const MOST_ROUTES: usize = 64;

/// How many elements a route has at most.
const MOST_ELEMENTS: usize = 64;

/// A way: the signal at which it begins, where it ends, and its passages.
#[derive(Drop)]
pub(crate) struct Way {
    pub(crate) entry: SignalId,
    pub(crate) exit: Exit,
    pub(crate) passages: Vec<Passage>,
}

impl Model for Way {
    ghost use Rattle.route_derivation.specs.Ways as ways;

    ghost Value = { ways.Way };

    ghost view = { λ w. record { entry = w.entry; exit = w.exit; passages = w.passages.items } };
}

/// What a way comes to after it left an element.
#[derive(Clone, Copy)]
pub(crate) enum Beyond {
    /// Nothing, or its own entry signal.
    Nowhere,
    /// Its end.
    Exit(Exit),
    /// The port by which the next element is entered.
    On(Port),
}

/// What a way comes to by a joint, where no signal stands.
fn beyond_joint(joined: Option<Port>) -> Beyond
    ensures { result ≡ beyond_joint joined }
{
    match joined {
        Some(entered) => match entered.element {
            Element::Border(border) => Beyond::Exit(Exit::Border(border)),
            _ => Beyond::On(entered),
        },
        None => Beyond::Nowhere,
    }
}

/// What a way from a signal comes to after a passage.
#[tactic(auto, unfolding(crate::specs::inside::WaySearch::comes_to))]
fn comes_to(layout: &Layout, entry: SignalId, passage: &Passage) -> Beyond
    ensures { result ≡ comes_to layout.now entry passage.now.left }
{
    match signal_at(layout.signals(), passage.left) {
        Some(signal) if signal.0 == entry.0 => Beyond::Nowhere,
        Some(signal) => Beyond::Exit(Exit::Signal(signal)),
        None => beyond_joint(joined_to(layout.joints(), passage.left)),
    }
}

/// Adds a way to those that were found, unless it is one too many.
fn add_way(found: &mut Vec<Way>, way: Way) -> Result<(), Underived>
    ensures { Adds result found.old.items found.new.items (way ∷ []) }
{
    if found.len() >= MOST_ROUTES {
        return Err(Underived::TooMany);
    }
    found.push(way)?;
    Ok(())
}

/// A way that has come to its end.
fn ended(way: Partial, entry: SignalId, exit: Exit) -> Way
    ensures { result ≡ record { entry = entry; exit = exit; passages = way.passages } }
{
    Way {
        entry,
        exit,
        passages: way.passages,
    }
}

/// Where ways are looked for, from which signal, and whether they are judged by what they require.
#[derive(Clone, Copy)]
struct Search<'a> {
    alloc: Global,
    layout: &'a Layout,
    signal: SignalId,
    judged: bool,
}

/// Adds all ways that go on by a passage, if it is one, and have at most so many elements more.
fn add_ways_over(
    search: Search<'_>,
    before: &Partial,
    passage: Option<Passage>,
    room: usize,
    found: &mut Vec<Way>,
) -> Result<(), Underived>
    ensures { Adds result found.old.items found.new.items (ways_over search.entry.layout.now search.entry.signal room before.now passage) }
{
    let passage = match passage {
        Some(passage) => passage,
        None => return Ok(()),
    };
    if room == 0 {
        return Ok(());
    }
    if !may_go(search.layout, before, &passage) {
        return Ok(());
    }
    let longer = before.longer(search.alloc, search.layout, passage)?;
    match comes_to(search.layout, search.signal, &passage) {
        Beyond::Nowhere => Ok(()),
        Beyond::Exit(exit) => add_way(found, ended(longer, search.signal, exit)),
        Beyond::On(entered) => {
            add_ways_over(search, &longer, first_out(entered), room - 1, found)?;
            add_ways_over(search, &longer, second_out(entered), room - 1, found)
        }
    }
}

/// Adds all ways that begin over an element entered at a port, if it is one.
fn add_ways_behind(
    search: Search<'_>,
    entered: Option<Port>,
    found: &mut Vec<Way>,
) -> Result<(), Underived>
    ensures { Adds result found.old.items found.new.items (ways_behind search.entry.judged search.entry.layout.now search.entry.signal entered) }
{
    let entered = match entered {
        Some(entered) => entered,
        None => return Ok(()),
    };
    let start = Partial::new(search.alloc, search.judged);
    add_ways_over(search, &start, first_out(entered), MOST_ELEMENTS, found)?;
    add_ways_over(search, &start, second_out(entered), MOST_ELEMENTS, found)
}

/// Adds all ways that begin at the signal of a search.
#[tactic(auto, unfolding(crate::specs::inside::WaySearch::ways_from))]
fn add_ways_from(search: Search<'_>, found: &mut Vec<Way>) -> Result<(), Underived>
    ensures { Adds result found.old.items found.new.items (ways_from search.entry.judged search.entry.layout.now search.entry.signal) }
{
    let at = match port_of(search.layout.signals(), search.signal) {
        Some(at) => at,
        None => return Ok(()),
    };
    add_ways_behind(search, joined_to(search.layout.joints(), at), found)
}

/// All ways that begin at the signal of a search.
#[tactic(auto, using(crate::proofs::ImpossibleLaws::finds_alone, crate::proofs::ImpossibleLaws::stops_alone))]
fn ways_alone(search: Search<'_>) -> Result<Vec<Way>, Underived>
    ensures { Finds (λ v. v.items) result (ways_from search.entry.judged search.entry.layout.now search.entry.signal) }
{
    let mut found = Vec::new(search.alloc);
    match add_ways_from(search, &mut found) {
        Ok(()) => Ok(found),
        Err(fault) => Err(fault),
    }
}

/// All ways of at most 64 elements that begin at a signal, be they passable or not, or `TooMany` where
/// there are more than 64.
pub(crate) fn all_ways_from(
    alloc: Global,
    layout: &Layout,
    signal: SignalId,
) -> Result<Vec<Way>, Underived>
    ensures found { IfOk result (λ v. v.items ≡ ways_from false layout.now signal) }
    ensures many { result ≡ Err TooMany → ManyWaysFrom layout.now signal }
    ensures once { Once layout.now }
    ensures station { IsStation layout.now }
{
    layout.joints();
    ways_alone(Search {
        alloc,
        layout,
        signal,
        judged: false,
    })
}

/// Whether a signal stands in a list.
fn is_asked(entries: &[SignalId], signal: SignalId) -> bool
    ensures { result ≡ is_asked entries.now signal }
{
    entries.iter().any(|entry| entry.0 == signal.0)
}

/// Adds all passable ways that begin at a signal, if it stands in a list.
fn add_ways_asked(
    alloc: Global,
    layout: &Layout,
    entries: &[SignalId],
    signal: SignalId,
    found: &mut Vec<Way>,
) -> Result<(), Underived>
    ensures { Adds result found.old.items found.new.items (ways_asked layout.now entries.now signal) }
{
    if !is_asked(entries, signal) {
        return Ok(());
    }
    let search = Search {
        alloc,
        layout,
        signal,
        judged: true,
    };
    add_ways_from(search, found)
}

/// All passable ways that begin at signals of a list, in layout order.
fn ways_asked(alloc: Global, layout: &Layout, entries: &[SignalId]) -> Result<Vec<Way>, Underived>
    ensures { Finds (λ v. v.items) result (ways_below layout.now entries.now (length layout.now.signals)) }
{
    let mut found = Vec::new(alloc);
    let signals = layout.signals();
    for place in 0..signals.len() {
        add_ways_asked(alloc, layout, entries, SignalId(place), &mut found)?;
    }
    Ok(found)
}

/// The passable ways of at most 64 elements that begin at signals of a list, or `TooMany` where there are
/// more than 64.
pub(crate) fn route_ways(
    alloc: Global,
    layout: &Layout,
    entries: &[SignalId],
) -> Result<Vec<Way>, Underived>
    ensures found { IfOk result (λ v. AreRouteWays layout.now entries.now v.items) }
    ensures too_many { result ≡ Err TooMany → TooManyWays layout.now entries.now }
    ensures once { Once layout.now }
    ensures station { IsStation layout.now }
{
    layout.joints();
    ways_asked(alloc, layout, entries)
}
