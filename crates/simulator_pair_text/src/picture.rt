//! What can be seen of a pair.

ghost use Rattle.std.specs.Prelude.{◌≡◌, Some};

use rasta_core::MICROS;
use simulator_pair::{Aspect, Pair, Role};
use std::fmt;

/// What can be seen of an end.
#[derive(Clone, Copy, Debug)]
pub(crate) struct EndSeen {
    pub(crate) is_up: bool,
    /// How many items its user gave in the last connection.
    pub(crate) given: usize,
    /// How many items it took in the last connection.
    pub(crate) taken: usize,
}

impl EndSeen {
    ghost use Rattle.rasta_core.specs.Run.{end_of};
    ghost use Rattle.simulator_pair_text.specs.Answers.{seen_of_end};

    fn of(pair: &Pair, end: Role) -> EndSeen
        ensures { result ≡ seen_of_end (end_of end pair.now.run.ends) }
    {
        EndSeen {
            is_up: pair.is_up(end),
            given: pair.given(end).len(),
            taken: pair.taken(end).len(),
        }
    }
}

impl fmt::Display for EndSeen {
    ghost use Rattle.simulator_pair_text.specs.Answers.{end_text};

    ghost output = { λ end. Some (end_text end) };

    fn fmt<W: fmt::Write>(&self, f: &mut fmt::Formatter<W>) -> fmt::Result {
        let state = if self.is_up { "up" } else { "closed" };
        let given = self.given;
        let taken = self.taken;
        write!(f, "{state} given {given} taken {taken}")
    }
}

/// What can be seen of a pair.
#[derive(Clone, Copy, Debug)]
pub(crate) struct Picture {
    /// True time, in whole milliseconds.
    pub(crate) time: u64,
    pub(crate) lamp: Aspect,
    pub(crate) client: EndSeen,
    pub(crate) server: EndSeen,
}

impl Picture {
    ghost use Rattle.simulator_pair_text.specs.Answers.{seen_of};

    /// What can be seen of `pair` now.
    pub(crate) fn of(pair: &Pair) -> Picture
        ensures { result ≡ seen_of pair.now.run }
    {
        Picture {
            time: pair.time() / MICROS,
            lamp: pair.shown(),
            client: EndSeen::of(pair, Role::Client),
            server: EndSeen::of(pair, Role::Server),
        }
    }
}

impl fmt::Display for Picture {
    ghost use Rattle.simulator_pair_text.specs.Answers.{picture_text};

    ghost output = { λ seen. Some (picture_text seen) };

    fn fmt<W: fmt::Write>(&self, f: &mut fmt::Formatter<W>) -> fmt::Result {
        let time = self.time;
        let lamp = self.lamp.word();
        let client = self.client;
        let server = self.server;
        write!(f, "time {time}\nlamp {lamp}\nC {client}\nS {server}")
    }
}
