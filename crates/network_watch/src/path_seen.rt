//! What is seen of one network at a partner.

ghost use Rattle.std.specs.Prelude.{◌≡◌};
ghost use Rattle.network_watch.specs.Links.{is_long, is_silent, last_after, lost_after, news_of, path_after};

/// For how many milliseconds nothing comes over a network before it is lost; and for how long nothing is sent before a link counts as
/// down.
pub const SILENCE: u64 = 1500;

/// What is told of a network at a partner.
#[derive(Clone, Copy, Debug, PartialEq, Eq)]
pub enum News {
    /// Nothing came over it for 1500 ms, while the link was up.
    Lost,
    /// Something came over it again.
    Back,
}

/// What is seen of one network at a partner.
#[derive(Clone, Copy)]
pub struct PathSeen {
    /// Whether something came in the round that goes on.
    pub(crate) came: bool,
    /// What the clock read at the end of the last round in which something came.
    pub(crate) last: Option<u64>,
    pub(crate) is_lost: bool,
    /// What was to be told at the end of the last round.
    pub(crate) news: Option<News>,
}

/// Whether 1500 ms or more lie between two readings.
pub(crate) fn is_long(since: u64, reading: u64) -> bool
    ensures { result ≡ is_long since reading }
{
    reading.saturating_sub(since) >= SILENCE
}

/// Whether nothing came for so long.
fn is_silent(reading: u64, last: Option<u64>) -> bool
    ensures { result ≡ is_silent reading last }
{
    match last {
        Some(last) => is_long(last, reading),
        None => true,
    }
}

/// What is to be told at the end of a round, where the link was up for so long, or wasn't.
fn news_of(reading: u64, up_long: bool, path: PathSeen) -> Option<News>
    ensures { result ≡ news_of reading up_long path }
{
    match (path.is_lost, path.came) {
        (true, true) => Some(News::Back),
        (false, false) if up_long && is_silent(reading, path.last) => Some(News::Lost),
        _ => None,
    }
}

/// Whether it is lost, once this is told.
fn lost_after(before: bool, news: Option<News>) -> bool
    ensures { result ≡ lost_after before news }
{
    match news {
        Some(News::Lost) => true,
        Some(News::Back) => false,
        None => before,
    }
}

/// The end of the last round in which something came.
fn last_after(reading: u64, path: PathSeen) -> Option<u64>
    ensures { result ≡ last_after reading path }
{
    if path.came { Some(reading) } else { path.last }
}

/// A round ends at a reading.
pub(crate) fn path_after(reading: u64, up_long: bool, path: PathSeen) -> PathSeen
    ensures { result ≡ path_after reading up_long path }
{
    let news = news_of(reading, up_long, path);
    PathSeen {
        came: false,
        last: last_after(reading, path),
        is_lost: lost_after(path.is_lost, news),
        news,
    }
}
