//! Why a request is refused.

ghost use Rattle.std.specs.Prelude.{◌≡◌};
ghost use Rattle.draw_desk.specs.Asked.{refusal_text, status};

/// Why a request is refused, in the order in which the reasons are looked for: the first one is told.
#[derive(Clone, Copy)]
pub enum Refusal {
    /// It was sent to another host than this desk: a page of another host may stand after it.
    ForeignHost,
    /// Nothing is there.
    NoSuchTarget,
    /// The target is asked with another method.
    WrongMethod,
    /// What is to be done came from another page than the desk's.
    ForeignOrigin,
    /// It came without the token that the page was given.
    NoToken,
    /// A text has more than 1 MiB.
    TooLong,
    /// A panel is neither to start nor to stop.
    NoSuchWord,
    /// A text isn't UTF-8.
    NoText,
}

impl Refusal {
    /// The status with which it is told.
    pub fn status(self) -> u16
        ensures { result ≡ status self }
    {
        match self {
            Refusal::ForeignHost => 403,
            Refusal::NoSuchTarget => 404,
            Refusal::WrongMethod => 405,
            Refusal::ForeignOrigin => 403,
            Refusal::NoToken => 403,
            Refusal::TooLong => 413,
            Refusal::NoSuchWord => 400,
            Refusal::NoText => 400,
        }
    }

    /// What is told of it.
    pub fn text(self) -> &'static str
        ensures { result.now ≡ refusal_text self }
    {
        match self {
            Refusal::ForeignHost => "this page isn't at that address",
            Refusal::NoSuchTarget => "nothing is there",
            Refusal::WrongMethod => "not with this method",
            Refusal::ForeignOrigin => "a station is drawn from its own page alone",
            Refusal::NoToken => "station draw was started anew: load the page again",
            Refusal::TooLong => "a layout has at most 1 MiB",
            Refusal::NoSuchWord => "a panel is started or stopped",
            Refusal::NoText => "a layout is text",
        }
    }
}
