//! Devices that don't end, and readers that are too long, are interrupted or fail.

use limited_text::{TextFault, text_up_to};
use station_command::{Failure, text_of};
use std::alloc::Global;
use std::io;
use std::io::{Error, ErrorKind, Read};

#[test]
fn a_device_that_does_not_end_cannot_be_read(rt: HostRuntime) {
    assert!(rt; matches!(text_of(&rt, "/dev/zero"), Err(Failure::File(_))));
}

/// A reader that gives bytes at each second call: each other one is interrupted. After so many it fails, or ends.
#[derive(Drop)]
struct Halting {
    left: usize,
    fails: bool,
    halts: bool,
}

impl Read for Halting {
    fn read(&mut self, buf: &mut [u8]) -> io::Result<usize> {
        self.halts = !self.halts;
        if self.halts {
            return Err(Error::from(ErrorKind::Interrupted));
        }
        if self.left == 0 && self.fails {
            return Err(Error::from(ErrorKind::PermissionDenied));
        }
        let taken = buf.len().min(self.left);
        let (front, _) = buf.split_at_mut(taken);
        front.fill(b'a');
        self.left -= taken;
        Ok(taken)
    }
}

/// The text of a reader of so many bytes, and how many it still has then.
fn read(alloc: Global, left: usize, fails: bool, limit: u32) -> (Result<String, TextFault>, usize) {
    let mut reader = Halting {
        left,
        fails,
        halts: false,
    };
    let text = text_up_to(alloc, &mut reader, u64::from(limit));
    (text, reader.left)
}

#[test]
fn a_reader_is_asked_again_where_it_was_interrupted(rt: HostRuntime) {
    assert!(rt; matches!(read(rt.alloc(), 3, false, 3), (Ok(text), 0) if text.as_str() == "aaa"));
    assert!(rt;
        matches!(
            read(rt.alloc(), 2, true, 3),
            (Err(TextFault::Unreadable), 0)
        )
    );
}

#[test]
fn no_more_is_taken_than_shows_that_it_is_too_long(rt: HostRuntime) {
    let (text, left) = read(rt.alloc(), 20_000, false, 10_000);
    assert!(rt; matches!(text, Err(TextFault::TooLong)));
    assert!(rt; left == 9_999);
}
