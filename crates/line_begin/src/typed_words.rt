//! What is to be typed before a line begins again.

ghost use Rattle.std.specs.Prelude.{◌≡◌, ◌+◌, ◌≤◌, ◌++◌, length};
ghost use Rattle.std.specs.Str.{bytes_eq};
ghost use Rattle.arrayvec.specs.ArrayVec.{array_vec_len};
ghost use Rattle.line_begin.specs.Asked.{confirmation};

use arrayvec::ArrayVec;
use line_file::Name;

/// What is to be typed, before and behind the name of the line.
const BEFORE: &str = "no route onto or from line ";

const BEHIND: &str = " is set, their lamps are dark, and both ends are stopped";

/// Appends bytes for which there is room.
fn put(text: &mut ArrayVec<u8, 128>, more: &[u8])
    requires { array_vec_len text.old + length more.now ≤ 128 }
    ensures { text.new.items ≡ text.old.items ++ more.now }
{
    let _ = text.try_extend_from_slice(more);
}

/// What is to be typed before a line of this name begins again: it says what has to be so.
pub fn confirmation(name: &Name) -> ArrayVec<u8, 128>
    ensures { result.items ≡ confirmation name.now }
{
    let mut text = ArrayVec::new();
    put(&mut text, BEFORE.as_bytes());
    put(&mut text, name.bytes());
    put(&mut text, BEHIND.as_bytes());
    text
}

/// Whether exactly that was typed.
pub(crate) fn is_confirmed(name: &Name, typed: &str) -> bool
    ensures { result ≡ bytes_eq typed.now (confirmation name.now) }
{
    typed.as_bytes() == confirmation(name).as_slice()
}
