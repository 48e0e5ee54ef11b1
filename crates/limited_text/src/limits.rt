//! How long texts may be.

ghost use Rattle.std.specs.Prelude.{◌≡◌};
ghost use Rattle.limited_text.specs.Limits.{longest};

/// The most bytes of a layout: 1 MiB. The largest station that a layout can describe needs less.
const LAYOUT: u64 = 1_048_576;

/// The most bytes of what is no regular file: 64 MiB. A device, a pipe or a terminal may never end, and tells no length.
const STREAM: u64 = 67_108_864;

/// The most bytes of a regular file: 4 GiB. A recorded session may be long.
const FILE: u64 = 4_294_967_296;

/// What a text has.
#[derive(Clone, Copy, Debug, PartialEq, Eq)]
pub enum Content {
    /// A layout.
    Layout,
    /// Lines: events, a session or a script.
    Lines,
}

/// How many bytes a text may have, by what it has and whether it stands in a regular file.
pub(crate) fn longest(content: Content, is_file: bool) -> u64
    ensures { result ≡ longest content is_file }
{
    match (content, is_file) {
        (Content::Layout, _) => LAYOUT,
        (Content::Lines, false) => STREAM,
        (Content::Lines, true) => FILE,
    }
}
