//! What a node with two networks sees of them, and what is told of that.

ghost use Rattle.std.specs.Prelude.{◌≡◌, ◌++◌, IfOk, OnOk, map, slice_get, string_bytes};
ghost use Rattle.node_drive.specs.Calls.{datagram_heard};
ghost use Rattle.network_watch.specs.Links.{ended, sends};
ghost use Rattle.network_watch.specs.Watches.{noted, told_at};
ghost use Rattle.node_network.specs.News.{came_from, news_if, news_line, news_text, node_lines, seen};

use network_watch::{Network as Which, NetworkWatch, News, Telling};
use node_drive::{Layout, Network, NextDatagram, NodeId, Origin};
use std::alloc::{AllocError, Global};

/// What a node with two networks sees of them at its partners, which have their names by this layout.
#[derive(Drop)]
pub struct NetworksSeen<'a> {
    layout: &'a Layout,
    watch: NetworkWatch,
}

impl<'a> NetworksSeen<'a> {
    pub fn new(layout: &'a Layout, watch: NetworkWatch) -> NetworksSeen<'a>
        ensures layout { result.layout.now ≡ layout.now }
        ensures watch { result.watch ≡ watch }
    {
        NetworksSeen { layout, watch }
    }

    /// The question for a datagram was answered.
    pub(crate) fn note_next(&mut self, next: &NextDatagram)
        ensures { self.new ≡ record self.old { watch = seen (datagram_heard next.now) self.old.watch } }
    {
        if let NextDatagram::Came(arrived) = next {
            self.note_origin(arrived.origin);
        }
    }

    /// A datagram came from there.
    fn note_origin(&mut self, origin: Origin)
        ensures { self.new ≡ record self.old { watch = came_from origin self.old.watch } }
    {
        match (origin.from, origin.over) {
            (Some(node), Network::First) => self.watch.note_came(node.0, Which::First),
            (Some(node), Network::Second) => self.watch.note_came(node.0, Which::Second),
            _ => (),
        }
    }

    /// Something was sent to a node.
    pub(crate) fn note_sent(&mut self, to: NodeId)
        ensures { self.new ≡ record self.old { watch = noted sends to.0 self.old.watch (slice_get self.old.watch to.0) } }
    {
        self.watch.note_sent(to.0);
    }

    /// A round ends at a reading.
    pub(crate) fn end_round(&mut self, reading: u64)
        ensures { self.new ≡ record self.old { watch = map (ended reading) self.old.watch } }
    {
        self.watch.end_round(reading);
    }

    /// The lines that tell what changed at the end of the last round, or which networks are lost.
    pub(crate) fn text(&self, alloc: Global, telling: Telling) -> Result<String, AllocError>
        ensures { IfOk result (λ text. string_bytes text ≡ news_text self.now.layout.now telling self.now.watch) }
    {
        let mut text = String::new(alloc);
        for node in 0..self.watch.nodes() {
            self.push_node(&mut text, telling, node)?;
        }
        Ok(text)
    }

    /// Adds the lines that tell of both networks at a node.
    fn push_node(&self, text: &mut String, telling: Telling, node: usize) -> Result<(), AllocError>
        ensures { OnOk result (string_bytes text.new ≡ string_bytes text.old ++ node_lines self.now.layout.now telling node (slice_get self.now.watch node)) }
    {
        let first = self.watch.told(telling, node, Which::First);
        push_news(text, self.layout, node, Which::First, first)?;
        let second = self.watch.told(telling, node, Which::Second);
        push_news(text, self.layout, node, Which::Second, second)
    }
}

/// Adds the line that tells of a network at a node, if anything is told.
fn push_news(
    text: &mut String,
    layout: &Layout,
    node: usize,
    over: Which,
    news: Option<News>,
) -> Result<(), AllocError>
    ensures { OnOk result (string_bytes text.new ≡ string_bytes text.old ++ news_if layout.now node over news) }
{
    match news {
        Some(news) => push_line(text, layout, node, over, news),
        None => Ok(()),
    }
}

/// Adds the line that tells of a network at a node.
fn push_line(
    text: &mut String,
    layout: &Layout,
    node: usize,
    over: Which,
    news: News,
) -> Result<(), AllocError>
    ensures { OnOk result (string_bytes text.new ≡ string_bytes text.old ++ news_line layout.now node over news) }
{
    let letter = match over {
        Which::First => "A",
        Which::Second => "B",
    };
    let word = match news {
        News::Lost => "lost",
        News::Back => "back",
    };
    match layout.node_name(NodeId(node)) {
        Some(name) => {
            let name = name.as_str();
            write!(text, "network {letter} {word} {name}\n")
        }
        None => write!(text, "network {letter} {word} _\n"),
    }
}
