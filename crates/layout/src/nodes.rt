//! The nodes of a layout.

ghost use Rattle.std.specs.Prelude.{◌≡◌, ◌==◌, ◌<◌, ◌≤◌, [], IfOk, IfSome, length, slice_get, slice_index_or};
ghost use Rattle.std.specs.List.{position};
ghost use Rattle.std.specs.Option.{option_map};
ghost use Rattle.std.specs.Str.{bytes_eq};
ghost use Rattle.layout.specs.Nodes.{HasNode, controller_at, identities, identity_of, links, meant_node, name_of, node_at, node_names, nodes, number_of, partners};
ghost use Rattle.layout.specs.declared.ids.NodeId.{NodeId};

use crate::ids::{DetectorId, NodeId, PointId, SignalId};
use crate::node::Node;
use crate::site::Layout;
use sci_telegram::Name;
use std::alloc::{AllocError, Global};

impl Layout {
    /// How many object controllers there are, and so how many links: at most 80.
    pub fn links(&self) -> usize
        ensures value { result ≡ links self.now }
        ensures few { links self.now ≤ 80 }
    {
        // Every layout is a station, which has few entries.
        self.joints();
        self.signals().len() + self.points().len() + self.detectors().len()
    }

    /// How many nodes there are: the interlocking, and the object controllers.
    pub fn nodes(&self) -> usize
        ensures value { result ≡ nodes self.now }
        ensures names { result ≡ length (node_names self.now) }
    {
        self.links() + 1
    }

    /// The controller of a link, if there is one. The links of signals come first, then those of points,
    /// and last those of detectors.
    pub fn controller(&self, link: usize) -> Option<Node>
        ensures value { option_map meant_node result ≡ controller_at self.now link }
        ensures there { IfSome result (λ node. HasNode self.now (meant_node node)) }
    {
        let signals = self.signals().len();
        let points = self.points().len();
        if link < signals {
            return Some(Node::Signal(SignalId(link)));
        }
        if link < signals + points {
            return Some(Node::Point(PointId(link - signals)));
        }
        if link < self.links() {
            return Some(Node::Detector(DetectorId(link - signals - points)));
        }
        None
    }

    /// The node of a number, if there is one.
    pub fn node(&self, id: NodeId) -> Option<Node>
        ensures value { option_map meant_node result ≡ node_at self.now id.0 }
        ensures there { IfSome result (λ node. HasNode self.now (meant_node node)) }
    {
        match id.0 {
            0 => Some(Node::Interlocking),
            number => self.controller(number - 1),
        }
    }

    /// The number of a node.
    pub fn node_id(&self, node: Node) -> NodeId
        requires { HasNode self.now (meant_node node) }
        ensures { result.0 ≡ number_of self.now (meant_node node) }
    {
        // Every layout is a station, which has few entries.
        self.joints();
        match node {
            Node::Interlocking => NodeId(0),
            Node::Signal(signal) => NodeId(1 + signal.0),
            Node::Point(point) => NodeId(1 + self.signals().len() + point.0),
            Node::Detector(detector) => {
                NodeId(1 + self.signals().len() + self.points().len() + detector.0)
            }
        }
    }

    /// The name of a node.
    pub fn name(&self, node: Node) -> &Name
        requires { HasNode self.now (meant_node node) }
        ensures { result.now ≡ name_of self.now (meant_node node) }
    {
        match node {
            Node::Interlocking => &self.station().name,
            Node::Signal(signal) => &self.signals()[signal.0].name,
            Node::Point(point) => &self.points()[point.0].name,
            Node::Detector(detector) => self.detectors()[detector.0].name(),
        }
    }

    /// The identity of a node on its links, 1 to 4294967295.
    pub fn identity(&self, node: Node) -> u32
        requires { HasNode self.now (meant_node node) }
        ensures { result ≡ identity_of self.now (meant_node node) }
    {
        match node {
            Node::Interlocking => self.station().id,
            Node::Signal(signal) => self.signals()[signal.0].id,
            Node::Point(point) => self.points()[point.0].id,
            Node::Detector(detector) => self.detectors()[detector.0].id(),
        }
    }

    /// The name of the node of a number, if there is one.
    pub fn node_name(&self, id: NodeId) -> Option<Name>
        ensures { result ≡ slice_get (node_names self.now) id.0 }
    {
        let node = self.node(id)?;
        Some(*self.name(node))
    }

    /// The node that a word names, if one does.
    pub fn node_named(&self, word: &str) -> Option<NodeId>
        ensures { result ≡ option_map (λ number. record { 0 = number }) (position (λ name. bytes_eq name word.now) (node_names self.now)) }
    {
        for number in 0..self.nodes() {
            if self.is_called(number, word) {
                return Some(NodeId(number));
            }
        }
        None
    }

    /// Whether a word is the name of the node of a number.
    fn is_called(&self, number: usize, word: &str) -> bool
        requires { number < nodes self.now }
        ensures { result ≡ bytes_eq (slice_index_or (node_names self.now) number []) word.now }
    {
        match self.node_name(NodeId(number)) {
            Some(name) => name.bytes() == word.as_bytes(),
            None => false,
        }
    }

    /// The identity of the controller of a link.
    fn partner(&self, link: usize) -> u32
        ensures { result ≡ slice_index_or (partners self.now) link 0 }
    {
        match self.controller(link) {
            Some(node) => self.identity(node),
            None => 0,
        }
    }

    /// The identities of all nodes, in their order.
    pub fn identities(&self, alloc: Global) -> Result<Vec<u32>, AllocError>
        ensures { IfOk result (λ v. v.items ≡ identities self.now) }
    {
        let mut all = Vec::new(alloc);
        all.push(self.station().id)?;
        for link in 0..self.links() {
            all.push(self.partner(link))?;
        }
        Ok(all)
    }

    /// The link to the controller of an identity, if one has it.
    pub fn link_with(&self, identity: u32) -> Option<usize>
        ensures place { result ≡ position (λ id. id == identity) (partners self.now) }
        ensures there { IfSome result (λ link. link < links self.now) }
        ensures few { links self.now ≤ 80 }
    {
        for link in 0..self.links() {
            if self.partner(link) == identity {
                return Some(link);
            }
        }
        None
    }

    /// The node of an identity, if one has it.
    pub fn node_with(&self, identity: u32) -> Option<NodeId>
        ensures { result ≡ option_map (λ number. record { 0 = number }) (position (λ id. id == identity) (identities self.now)) }
    {
        if self.station().id == identity {
            return Some(NodeId(0));
        }
        match self.link_with(identity) {
            Some(link) => Some(NodeId(link + 1)),
            None => None,
        }
    }
}
