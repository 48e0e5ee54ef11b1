//! A stream of the machine whose calls don't wait long.

ghost use Rattle.std.specs.Prelude.{◌≡◌};

use libc::net::{self, POLLIN, POLLOUT};
use libc::types::pollfd;
use std::io::{self, ErrorKind, Read, Write};
use std::os::fd::{AsRawFd, RawFd};

/// A stream of which each call waits for so many milliseconds at most, and then answers `WouldBlock`. The system is asked before
/// the call whether it would wait. So the stream keeps its mode, which others may share: a terminal has one for its input and its
/// output.
#[derive(Drop)]
pub struct WaitedStream<S> {
    stream: S,
    millis: u16,
}

impl<S> WaitedStream<S> {
    pub fn new(stream: S, millis: u16) -> WaitedStream<S>
        ensures stream { result.stream ≡ stream }
        ensures millis { result.millis ≡ millis }
    {
        WaitedStream { stream, millis }
    }
}

impl<S: Read + AsRawFd> Read for WaitedStream<S> {
    ghost remaining = { λ waited. S.remaining waited.stream };

    fn read(&mut self, buf: &mut [u8]) -> io::Result<usize> {
        if would_wait(self.stream.as_raw_fd(), POLLIN, self.millis) {
            return Err(io::Error::from(ErrorKind::WouldBlock));
        }
        self.stream.read(buf)
    }
}

impl<S: Write + AsRawFd> Write for WaitedStream<S> {
    ghost contents = { λ waited. S.contents waited.stream };

    fn write(&mut self, buf: &[u8]) -> io::Result<usize> {
        if would_wait(self.stream.as_raw_fd(), POLLOUT, self.millis) {
            return Err(io::Error::from(ErrorKind::WouldBlock));
        }
        self.stream.write(buf)
    }

    fn flush(&mut self) -> io::Result<()> {
        self.stream.flush()
    }
}

/// Waits until a call wouldn't, or so long. It tells whether the call would wait still.
fn would_wait(stream: RawFd, call: i16, millis: u16) -> bool {
    let mut asked = [pollfd {
        fd: stream,
        events: call,
        revents: 0,
    }];
    net::poll(&mut asked, i32::from(millis)) <= 0
}
