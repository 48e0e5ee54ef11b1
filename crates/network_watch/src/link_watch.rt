//! What is seen of both networks at a partner.

ghost use Rattle.std.specs.Prelude.{◌≡◌, true};
ghost use Rattle.network_watch.specs.Links.{begun, came_over, ended, is_up_long, new_link, still_used, used_after};

use crate::path_seen::{PathSeen, is_long, path_after};
use datagram_hold::Network;

/// A link that is up: something was sent over it, and from then on again and again.
#[derive(Clone, Copy)]
pub struct LinkUse {
    /// The reading at the end of the round since which it is up.
    pub(crate) since: u64,
    /// That of the last round in which something was sent.
    pub(crate) last: u64,
}

/// What is seen of the link to a partner, and of both networks there.
#[derive(Clone, Copy)]
pub struct LinkWatch {
    /// Whether something was sent in the round that goes on.
    pub(crate) sent: bool,
    /// Since when it is up, if it is.
    pub(crate) used: Option<LinkUse>,
    pub(crate) first: PathSeen,
    pub(crate) second: PathSeen,
}

/// Nothing was seen of a network.
const NOTHING: PathSeen = PathSeen {
    came: false,
    last: None,
    is_lost: false,
    news: None,
};

impl LinkWatch {
    /// Nothing was sent, and nothing came.
    pub fn new() -> LinkWatch
        ensures { result ≡ new_link }
    {
        LinkWatch {
            sent: false,
            used: None,
            first: NOTHING,
            second: NOTHING,
        }
    }

    /// Something was sent to the partner.
    pub fn note_sent(&mut self)
        ensures { self.new ≡ record self.old { sent = true } }
    {
        self.sent = true;
    }

    /// Something came from the partner over a network.
    pub fn note_came(&mut self, over: Network)
        ensures { self.new ≡ came_over over self.old }
    {
        match over {
            Network::First => self.first.came = true,
            Network::Second => self.second.came = true,
        }
    }

    /// A round ends at a reading.
    pub fn end_round(&mut self, reading: u64)
        ensures { self.new ≡ ended reading self.old }
    {
        let used = used_after(self.sent, reading, self.used);
        let up_long = is_up_long(reading, used);
        self.sent = false;
        self.used = used;
        self.first = path_after(reading, up_long, self.first);
        self.second = path_after(reading, up_long, self.second);
    }
}

/// A link is up from the first round on in which something is sent.
fn begun(sent: bool, reading: u64) -> Option<LinkUse>
    ensures { result ≡ begun sent reading }
{
    if sent {
        Some(LinkUse {
            since: reading,
            last: reading,
        })
    } else {
        None
    }
}

/// A link that is up stays so.
fn still_used(sent: bool, reading: u64, used: LinkUse) -> LinkUse
    ensures { result ≡ still_used sent reading used }
{
    if sent {
        LinkUse {
            since: used.since,
            last: reading,
        }
    } else {
        used
    }
}

/// Since when a link is up, at the end of a round.
fn used_after(sent: bool, reading: u64, used: Option<LinkUse>) -> Option<LinkUse>
    ensures { result ≡ used_after sent reading used }
{
    match used {
        Some(used) if !is_long(used.last, reading) => Some(still_used(sent, reading, used)),
        _ => begun(sent, reading),
    }
}

/// Whether a link is up for 1500 ms or more.
fn is_up_long(reading: u64, used: Option<LinkUse>) -> bool
    ensures { result ≡ is_up_long reading used }
{
    match used {
        Some(used) => is_long(used.since, reading),
        None => false,
    }
}
