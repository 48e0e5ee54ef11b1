//! Reports and faults on writers that fail, hold back, are slow, or have little room. Where memory is lacking a fault is
//! told once more, so that the tests also hold with any one allocation refused.

use arrayvec::ArrayVec;
use station_run::check_text;
use std::alloc::Global;
use std::io;
use std::io::Write;

/// A track from which two routes lead over another to a border.
const STATION: &str = r#"
section = ["GA", "GB"]
border = ["E"]
joint = [["A.b", "B.a"], ["B.b", "E.end"]]
track = [{ name = "A", section = "GA" }, { name = "B", section = "GB" }]
point = []
signal = [{ name = "S", id = 2, at = "A.b" }]
detector = [{ name = "D", id = 3, sections = ["GA", "GB"] }]
route = [
  { name = "R1", entry = "S", exit = "E", path = ["B.b"], points = {} },
  { name = "R2", entry = "S", exit = "E", path = ["B.b"], points = {} },
]
station = { name = "I", id = 1 }
"#;

/// How long the report on it is.
const REPORT_LENGTH: usize =
    "ok: 1 signals, 0 points, 2 sections, 2 routes\nconflict R1 R2\n".len();

/// A text that is no TOML.
const NO_LAYOUT: &str = "section =";

/// The status of a layout on this writer, if nothing else is told than want of memory.
fn status_on<W: Write>(alloc: Global, layout: &str, out: &mut W) -> Option<u8> {
    let mut err: ArrayVec<u8, 40> = ArrayVec::new();
    let status = check_text(alloc, layout, out, &mut err);
    if err.is_empty() || was_lacking(err.as_slice()) {
        Some(status)
    } else {
        None
    }
}

/// Whether memory was lacking.
fn was_lacking(told: &[u8]) -> bool {
    told == b"layout fault 8 OutOfMemory\n".as_slice()
        || told == b"table fault 10 OutOfMemory\n".as_slice()
}

/// A writer that takes so many bytes and then fails.
#[derive(Drop)]
pub(crate) struct Failing {
    pub(crate) left: usize,
}

impl Write for Failing {
    fn write(&mut self, buf: &[u8]) -> io::Result<usize> {
        let taken = buf.len().min(self.left);
        self.left -= taken;
        if taken == 0 {
            return Err(io::Error::from(io::ErrorKind::StorageFull));
        }
        Ok(taken)
    }

    fn flush(&mut self) -> io::Result<()> {
        Ok(())
    }
}

/// A writer that takes all bytes, and then fails to pass them on.
#[derive(Drop)]
struct Withholding;

impl Write for Withholding {
    fn write(&mut self, buf: &[u8]) -> io::Result<usize> {
        Ok(buf.len())
    }

    fn flush(&mut self) -> io::Result<()> {
        Err(io::Error::from(io::ErrorKind::StorageFull))
    }
}

/// How many bytes are taken of a report before a write fails.
const TAKEN: [usize; 5] = [0, 1, 40, 50, REPORT_LENGTH - 1];

#[test]
fn a_report_that_is_not_written_ends_with_status_1(rt: HostRuntime) {
    for left in &TAKEN {
        let status = status_on(rt.alloc(), STATION, &mut Failing { left: *left });
        assert!(rt; status == Some(1), "after {left} bytes");
    }
    assert!(rt; status_on(rt.alloc(), STATION, &mut Withholding) == Some(1));
}

/// A writer that takes a byte at a time, and is interrupted before each.
#[derive(Drop)]
struct Slow {
    told: ArrayVec<u8, 40>,
    is_interrupted: bool,
}

impl Write for Slow {
    fn write(&mut self, buf: &[u8]) -> io::Result<usize> {
        self.is_interrupted = !self.is_interrupted;
        if self.is_interrupted {
            return Err(io::Error::from(io::ErrorKind::Interrupted));
        }
        match buf.split_first() {
            Some((first, _)) if self.told.try_push(*first).is_ok() => Ok(1),
            _ => Ok(0),
        }
    }

    fn flush(&mut self) -> io::Result<()> {
        Ok(())
    }
}

/// Whether what is wrong with a text is told to a writer with status 1, and nothing is reported on it.
fn tells<E: Write>(alloc: Global, text: &str, err: &mut E) -> bool {
    let mut out: ArrayVec<u8, 40> = ArrayVec::new();
    check_text(alloc, text, &mut out, err) == 1 && out.is_empty()
}

/// Whether the first bytes of the fault are told to a writer that has no room for more.
fn is_cut(alloc: Global) -> bool {
    let mut room: ArrayVec<u8, 14> = ArrayVec::new();
    let mut is_told = tells(alloc, NO_LAYOUT, &mut room);
    if room.as_slice() == b"layout fault 8".as_slice() {
        room.clear();
        is_told = is_told && tells(alloc, NO_LAYOUT, &mut room);
    }
    is_told && room.as_slice() == b"layout fault 1".as_slice()
}

/// Whether the whole fault is told to a slow writer.
fn is_whole(alloc: Global) -> bool {
    let mut slow = Slow {
        told: ArrayVec::new(),
        is_interrupted: false,
    };
    let mut is_told = tells(alloc, NO_LAYOUT, &mut slow);
    if was_lacking(slow.told.as_slice()) {
        slow.told.clear();
        is_told = is_told && tells(alloc, NO_LAYOUT, &mut slow);
    }
    is_told && slow.told.as_slice() == b"layout fault 1 Toml\n".as_slice()
}

#[test]
fn a_fault_is_told_as_far_as_it_is_taken(rt: HostRuntime) {
    assert!(rt; tells(rt.alloc(), NO_LAYOUT, &mut Failing { left: 3 }));
    assert!(rt; is_cut(rt.alloc()));
    assert!(rt; is_whole(rt.alloc()));
}
