//! What tells the numbers of one name apart.

ghost use Rattle.std.specs.Prelude.{◌≡◌, ◌<◌};
ghost use Rattle.run_numbers.specs.Labels.{fate, fate_place, fate_word, is_taken, outcome_place, outcome_word, reason, reason_place, reason_word, refused};

use rasta_core_link::Verdict;

/// What became of a datagram that a node heard, by the verdict of its link. All but the first two refuse it.
#[derive(Clone, Copy, Debug, PartialEq, Eq)]
pub enum Fate {
    Taken,
    /// An earlier one was missing, and was asked for.
    Asked,
    /// The bytes are no PDU.
    Unreadable,
    NotForMe,
    WrongSender,
    OutOfRange,
    Stale,
    BadConfirm,
    WrongState,
    Discarded,
    Quiet,
}

/// The reason that a disconnection request tells, by its number.
#[derive(Clone, Copy, Debug, PartialEq, Eq)]
pub enum Reason {
    User,
    State,
    Sequence,
    Time,
    Version,
    Window,
    /// A number above 5.
    Other,
}

/// The answer to a command, with the number of a refusal.
#[derive(Clone, Copy, Debug, PartialEq, Eq)]
pub enum Outcome {
    Accepted,
    Refused1,
    Refused2,
    Refused3,
    Refused4,
    Refused5,
    Refused6,
    Refused7,
    Refused8,
    Refused9,
    Refused10,
    Refused11,
    Refused12,
    Refused13,
    Refused14,
}

impl Fate {
    /// What a verdict comes to.
    pub fn of(verdict: Verdict) -> Fate
        ensures { result ≡ fate verdict }
    {
        match verdict {
            Verdict::Taken => Fate::Taken,
            Verdict::Asked => Fate::Asked,
            Verdict::Unreadable(_) => Fate::Unreadable,
            Verdict::NotForMe => Fate::NotForMe,
            Verdict::WrongSender => Fate::WrongSender,
            Verdict::OutOfRange => Fate::OutOfRange,
            Verdict::Stale => Fate::Stale,
            Verdict::BadConfirm => Fate::BadConfirm,
            Verdict::WrongState => Fate::WrongState,
            Verdict::Discarded => Fate::Discarded,
            Verdict::Quiet => Fate::Quiet,
        }
    }

    /// Whether the link took it.
    pub fn is_taken(self) -> bool
        ensures { result ≡ is_taken self }
    {
        matches!(self, Fate::Taken)
    }

    /// Its word.
    pub(crate) fn word(self) -> &'static str
        ensures { result.now ≡ fate_word self }
    {
        match self {
            Fate::Taken => "taken",
            Fate::Asked => "asked",
            Fate::Unreadable => "unreadable",
            Fate::NotForMe => "not_for_me",
            Fate::WrongSender => "wrong_sender",
            Fate::OutOfRange => "out_of_range",
            Fate::Stale => "stale",
            Fate::BadConfirm => "bad_confirm",
            Fate::WrongState => "wrong_state",
            Fate::Discarded => "discarded",
            Fate::Quiet => "quiet",
        }
    }

    /// Its place among all.
    pub(crate) fn place(self) -> usize
        ensures place { result ≡ fate_place self }
        ensures within { result < 11 }
    {
        match self {
            Fate::Taken => 0,
            Fate::Asked => 1,
            Fate::Unreadable => 2,
            Fate::NotForMe => 3,
            Fate::WrongSender => 4,
            Fate::OutOfRange => 5,
            Fate::Stale => 6,
            Fate::BadConfirm => 7,
            Fate::WrongState => 8,
            Fate::Discarded => 9,
            Fate::Quiet => 10,
        }
    }
}

impl Reason {
    /// The reason of a number.
    pub fn of(number: u16) -> Reason
        ensures { result ≡ reason number }
    {
        if number == 0 {
            Reason::User
        } else if number == 1 {
            Reason::State
        } else if number == 2 {
            Reason::Sequence
        } else if number == 3 {
            Reason::Time
        } else if number == 4 {
            Reason::Version
        } else if number == 5 {
            Reason::Window
        } else {
            Reason::Other
        }
    }

    /// Its word.
    pub(crate) fn word(self) -> &'static str
        ensures { result.now ≡ reason_word self }
    {
        match self {
            Reason::User => "user",
            Reason::State => "state",
            Reason::Sequence => "sequence",
            Reason::Time => "time",
            Reason::Version => "version",
            Reason::Window => "window",
            Reason::Other => "other",
        }
    }

    /// Its place among all.
    pub(crate) fn place(self) -> usize
        ensures place { result ≡ reason_place self }
        ensures within { result < 7 }
    {
        match self {
            Reason::User => 0,
            Reason::State => 1,
            Reason::Sequence => 2,
            Reason::Time => 3,
            Reason::Version => 4,
            Reason::Window => 5,
            Reason::Other => 6,
        }
    }
}

impl Outcome {
    /// A refusal by its number, 1 to 14.
    pub fn refused(number: u8) -> Outcome
        ensures { result ≡ refused number }
    {
        if number == 1 {
            Outcome::Refused1
        } else if number == 2 {
            Outcome::Refused2
        } else if number == 3 {
            Outcome::Refused3
        } else if number == 4 {
            Outcome::Refused4
        } else if number == 5 {
            Outcome::Refused5
        } else if number == 6 {
            Outcome::Refused6
        } else if number == 7 {
            Outcome::Refused7
        } else if number == 8 {
            Outcome::Refused8
        } else if number == 9 {
            Outcome::Refused9
        } else if number == 10 {
            Outcome::Refused10
        } else if number == 11 {
            Outcome::Refused11
        } else if number == 12 {
            Outcome::Refused12
        } else if number == 13 {
            Outcome::Refused13
        } else {
            Outcome::Refused14
        }
    }

    /// Its word.
    pub(crate) fn word(self) -> &'static str
        ensures { result.now ≡ outcome_word self }
    {
        match self {
            Outcome::Accepted => "accepted",
            Outcome::Refused1 => "refused_1",
            Outcome::Refused2 => "refused_2",
            Outcome::Refused3 => "refused_3",
            Outcome::Refused4 => "refused_4",
            Outcome::Refused5 => "refused_5",
            Outcome::Refused6 => "refused_6",
            Outcome::Refused7 => "refused_7",
            Outcome::Refused8 => "refused_8",
            Outcome::Refused9 => "refused_9",
            Outcome::Refused10 => "refused_10",
            Outcome::Refused11 => "refused_11",
            Outcome::Refused12 => "refused_12",
            Outcome::Refused13 => "refused_13",
            Outcome::Refused14 => "refused_14",
        }
    }

    /// Its place among all.
    pub(crate) fn place(self) -> usize
        ensures place { result ≡ outcome_place self }
        ensures within { result < 15 }
    {
        match self {
            Outcome::Accepted => 0,
            Outcome::Refused1 => 1,
            Outcome::Refused2 => 2,
            Outcome::Refused3 => 3,
            Outcome::Refused4 => 4,
            Outcome::Refused5 => 5,
            Outcome::Refused6 => 6,
            Outcome::Refused7 => 7,
            Outcome::Refused8 => 8,
            Outcome::Refused9 => 9,
            Outcome::Refused10 => 10,
            Outcome::Refused11 => 11,
            Outcome::Refused12 => 12,
            Outcome::Refused13 => 13,
            Outcome::Refused14 => 14,
        }
    }
}
