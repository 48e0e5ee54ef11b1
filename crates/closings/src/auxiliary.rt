//! Auxiliary commands, and how many of them were accepted.

ghost use Rattle.std.specs.Prelude.{◌≡◌};
ghost use Rattle.closings.specs.Auxiliaries.{count_of, counted_by, none_counted};

/// A command by which a person vouches for what the interlocking doesn't know. Each one that is accepted is counted, as in a signal
/// box.
#[derive(Clone, Copy, Debug, PartialEq, Eq)]
pub enum Auxiliary {
    /// To free a route that no train was seen to pass.
    Release,
    /// To open what was closed.
    Open,
}

/// How many auxiliary commands were accepted, of each kind.
#[derive(Clone, Copy, Debug, PartialEq, Eq)]
pub struct AuxiliaryCounts {
    pub releases: u64,
    pub opens: u64,
}

impl AuxiliaryCounts {
    /// None was counted.
    pub fn none() -> AuxiliaryCounts
        ensures { result ≡ none_counted }
    {
        AuxiliaryCounts {
            releases: 0,
            opens: 0,
        }
    }

    /// How many of a kind.
    pub fn count(self, of: Auxiliary) -> u64
        ensures { result ≡ count_of of self }
    {
        match of {
            Auxiliary::Release => self.releases,
            Auxiliary::Open => self.opens,
        }
    }

    /// One more of a kind was accepted.
    pub fn with_one(self, of: Auxiliary) -> AuxiliaryCounts
        ensures { result ≡ counted_by of self }
    {
        match of {
            Auxiliary::Release => AuxiliaryCounts {
                releases: self.releases.saturating_add(1),
                opens: self.opens,
            },
            Auxiliary::Open => AuxiliaryCounts {
                releases: self.releases,
                opens: self.opens.saturating_add(1),
            },
        }
    }
}
