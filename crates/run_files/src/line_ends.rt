//! Where lines end.

ghost use Rattle.std.specs.Prelude.{◌≡◌};
ghost use Rattle.run_files.specs.Parts.{ends_line};

pub(crate) const LINE_FEED: u8 = b'\n';

/// Whether bytes end with a line.
pub(crate) fn ends_line(bytes: &[u8]) -> bool
    ensures { result ≡ ends_line bytes.now }
{
    match bytes.last() {
        Some(byte) => *byte == LINE_FEED,
        None => false,
    }
}
