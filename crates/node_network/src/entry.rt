//! The lines of a record.

ghost use Rattle.std.specs.Prelude.{◌≡◌, ◌++◌, ◌∷◌, IfOk, OnOk, Some, codes, string_bytes};
ghost use Rattle.std.specs.Fmt.{decimal};
ghost use Rattle.std.specs.List.{flat_map};
ghost use Rattle.node_network.specs.Records.{bytes_words, call_line, call_with, counts_words, kept_word, kept_words, listed_words, over_words, sender_word, thing_words, thrown_words};

use node_drive::node_lines::AuxiliaryCounts;
use node_drive::{
    Fault, Layout, Named, Network, NodeId, Origin, Thing, ThrownAway, ToKeep, hex_word,
};
use std::alloc::{AllocError, Global};

/// A call of a node's process that has a line in its record.
#[derive(Clone, Copy)]
pub enum Entry<'a> {
    /// The clock was read.
    Reads(u64),
    /// An operator began to listen.
    Listens,
    /// A line came.
    Hears(&'a str),
    /// No line came any more.
    Closed,
    /// A datagram came.
    Comes(Origin, &'a [u8]),
    /// A datagram was asked for, and the call failed.
    FailsToReceive,
    /// What waited in the socket was thrown away.
    ThrowsAway(ThrownAway),
    /// A line was written.
    Writes(&'a str),
    /// A line wasn't written whole.
    BreaksOff(&'a str),
    /// Bytes were sent to a node.
    Sends(NodeId, &'a [u8]),
    /// A line was faulty, by its number.
    Complains(u64, Fault),
    /// This was to be kept, and whether it is.
    Keeps(&'a ToKeep, bool),
}

/// The line of a call, without a line feed.
pub fn entry_line(alloc: Global, layout: &Layout, entry: Entry<'_>) -> Result<String, AllocError>
    ensures { IfOk result (λ line. Some (string_bytes line) ≡ call_line layout.now (call_with entry.entry)) }
{
    match entry {
        Entry::Reads(reading) => format!(in alloc; "at {reading}"),
        Entry::Listens => String::from_str(alloc, "listens"),
        Entry::Hears(text) => text_line(alloc, "hears", text),
        Entry::Closed => String::from_str(alloc, "closed"),
        Entry::Comes(origin, bytes) => {
            let over = over_words(origin.over);
            datagram_line(alloc, layout, "from", origin.from, over, bytes)
        }
        Entry::FailsToReceive => String::from_str(alloc, "fails to receive"),
        Entry::ThrowsAway(thrown) => thrown_line(alloc, thrown),
        Entry::Writes(text) => text_line(alloc, "writes", text),
        Entry::BreaksOff(text) => text_line(alloc, "breaks off", text),
        Entry::Sends(to, bytes) => datagram_line(alloc, layout, "sends", Some(to), "", bytes),
        Entry::Complains(line, fault) => {
            let number = fault.number();
            format!(in alloc; "complains {line} {number}")
        }
        Entry::Keeps(all, kept) => kept_line(alloc, layout, all, kept),
    }
}

/// The line of what was thrown away.
fn thrown_line(alloc: Global, thrown: ThrownAway) -> Result<String, AllocError>
    ensures { IfOk result (λ line. string_bytes line ≡ thrown_words thrown.count thrown.found_empty) }
{
    let count = thrown.count;
    if thrown.found_empty {
        format!(in alloc; "throws away all {count}")
    } else {
        format!(in alloc; "throws away {count}")
    }
}

/// Adds the words of a thing behind a comma.
fn add_thing(layout: &Layout, line: &mut String, thing: Thing) -> Result<(), AllocError>
    ensures { OnOk result (string_bytes line.new ≡ string_bytes line.old ++ thing_words layout.now thing) }
{
    line.push_str(", ")?;
    Named::One(thing).write(layout, line)
}

/// Adds the words of things, each behind a comma.
fn add_things(layout: &Layout, line: &mut String, things: &[Thing]) -> Result<(), AllocError>
    ensures { OnOk result (string_bytes line.new ≡ string_bytes line.old ++ flat_map (thing_words layout.now) things.now) }
{
    for thing in things {
        add_thing(layout, line, *thing)?;
    }
    Ok(())
}

/// Whether what was to be kept is.
fn kept_word(kept: bool) -> &'static str
    ensures { result.now ≡ kept_word kept }
{
    if kept { "keeps" } else { "fails to keep" }
}

/// A line of what was to be kept, up to how many things are closed.
fn counted_line(
    alloc: Global,
    what: &str,
    counts: AuxiliaryCounts,
    count: usize,
) -> Result<String, AllocError>
    ensures { IfOk result (λ line. string_bytes line ≡ what.now ++ 32 ∷ (codes "releases " ++ (decimal counts.releases ++ (codes " opens " ++ (decimal counts.opens ++ (codes ": " ++ decimal count)))))) }
{
    let (releases, opens) = (counts.releases, counts.opens);
    format!(in alloc; "{what} releases {releases} opens {opens}: {count}")
}

/// The line of these counts and these things, which were to be kept.
#[tactic(auto, using(crate::proofs::KeptLines::with_things))]
fn things_line(
    alloc: Global,
    layout: &Layout,
    kept: bool,
    counts: AuxiliaryCounts,
    things: &[Thing],
) -> Result<String, AllocError>
    ensures { IfOk result (λ line. string_bytes line ≡ kept_word kept ++ 32 ∷ (counts_words counts ++ (codes ": " ++ listed_words layout.now things.now))) }
{
    let mut line = counted_line(alloc, kept_word(kept), counts, things.len())?;
    add_things(layout, &mut line, things)?;
    Ok(line)
}

/// The line of what was to be kept.
fn kept_line(alloc: Global, layout: &Layout, all: &ToKeep, kept: bool) -> Result<String, AllocError>
    ensures { IfOk result (λ line. string_bytes line ≡ kept_words layout.now all.now kept) }
{
    let things = all.closings.things(alloc, layout)?;
    things_line(alloc, layout, kept, all.counts, &things)
}

/// The words for the network over which a datagram came.
fn over_words(over: Network) -> &'static str
    ensures { result.now ≡ over_words over }
{
    match over {
        Network::Alone => "",
        Network::First => " over 1",
        Network::Second => " over 2",
    }
}

/// The line of a datagram, with the node to which it goes or from whose address it came, if there is one, and the words for its network.
fn datagram_line(
    alloc: Global,
    layout: &Layout,
    what: &str,
    node: Option<NodeId>,
    over: &str,
    bytes: &[u8],
) -> Result<String, AllocError>
    ensures { IfOk result (λ line. string_bytes line ≡ what.now ++ 32 ∷ bytes_words (sender_word layout.now node) over.now bytes.now) }
{
    let Some(node) = node else {
        return bytes_line(alloc, what, "-", over, bytes);
    };
    match layout.node_name(node) {
        Some(name) => bytes_line(alloc, what, name.as_str(), over, bytes),
        None => bytes_line(alloc, what, "_", over, bytes),
    }
}

/// The line of a datagram, with the words for its node and its network.
fn bytes_line(
    alloc: Global,
    what: &str,
    node: &str,
    over: &str,
    bytes: &[u8],
) -> Result<String, AllocError>
    ensures { IfOk result (λ line. string_bytes line ≡ what.now ++ 32 ∷ bytes_words node.now over.now bytes.now) }
{
    let bytes = hex_word(alloc, bytes)?;
    format!(in alloc; "{what} {node}{over} {bytes}")
}

/// The line of a text.
fn text_line(alloc: Global, what: &str, text: &str) -> Result<String, AllocError>
    ensures { IfOk result (λ line. string_bytes line ≡ what.now ++ 32 ∷ text.now) }
{
    format!(in alloc; "{what} {text}")
}
