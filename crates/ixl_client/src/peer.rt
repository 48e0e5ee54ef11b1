//! Whom a client speaks with.

ghost use Rattle.std.specs.Prelude.{◌≡◌, ◌<◌, Some, IfSome};
ghost use Rattle.std.specs.Option.{option_map};
ghost use Rattle.ixl_client.specs.Meaning.{is_for_client, place_of};
ghost use Rattle.sci_telegram.specs.declared.message.Message.TheVariants as message;
ghost use Rattle.ixl_client.specs.Step.{telegram_to};

use sci_telegram::{Initialisation, Message, Name, Protocol, Telegram};
use std::marker::Model;

/// Whom a client speaks with, and how.
#[derive(Debug, Drop)]
pub struct Peer {
    /// The protocol of all telegrams.
    pub protocol: Protocol,
    /// The version of it that the client tells.
    pub version: u8,
    /// The client's own name.
    pub own_name: Name,
    /// The controller's name.
    pub name: Name,
    /// The objects that the controller tells of, by the names of their telegrams' senders, in the order of the initial
    /// status: the sections of a detector, and else the controller itself.
    pub objects: Vec<Name>,
}

impl Model for Peer {
    ghost use Rattle.ixl_client.specs.Client.{PeerState};

    ghost Value = { PeerState };

    ghost view = { λ p. record { protocol = p.protocol; version = p.version; own_name = p.own_name; name = p.name; objects = p.objects.items } };
}

impl Peer {
    /// A telegram to the controller.
    pub(crate) fn telegram(&self, message: Message) -> Telegram
        ensures { result ≡ telegram_to self.now message }
    {
        Telegram {
            sender: self.own_name,
            receiver: self.name,
            message,
        }
    }

    /// What the client says of the initialisation.
    pub(crate) fn message(&self, initialisation: Initialisation) -> Message
        ensures { result ≡ message.Initialisation self.now.protocol initialisation }
    {
        Message::Initialisation(self.protocol, initialisation)
    }

    /// Whether a telegram is in the controller's protocol and for this client.
    pub(crate) fn is_for_client(&self, telegram: &Telegram) -> bool
        ensures { result ≡ is_for_client self.now telegram.now }
    {
        telegram.message.protocol() == self.protocol
            && telegram.receiver.bytes() == self.own_name.bytes()
    }

    /// The place of an object among those that the controller tells of.
    pub(crate) fn place_of(&self, sender: &Name) -> Option<usize>
        ensures { result ≡ place_of self.now sender.now }
    {
        self.objects
            .iter()
            .position(|name| name.bytes() == sender.bytes())
    }
}
