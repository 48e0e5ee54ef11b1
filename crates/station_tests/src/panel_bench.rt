//! What panels are tested with: browsers whose requests come in known rounds, and whose answers are kept.

use crate::run_bench::SMALL;
use station_panel::{Listens, PageAsked};
use std::alloc::Global;
use std::cell::RefCell;
use std::io;
use std::io::{Read, Write};
use std::random::RandomSource;

/// The token that is drawn from bytes of 7.
pub(crate) const TOKEN: &str = "506381209866536711-506381209866536711";

/// A source whose bytes are known.
pub(crate) struct Sevens;

impl RandomSource for Sevens {
    fn fill_bytes(&self, buf: &mut [u8]) -> io::Result<()> {
        buf.fill(7);
        Ok(())
    }
}

/// A request.
#[derive(Clone, Copy)]
pub(crate) enum Asks {
    /// Of the panel's page, for a target.
    Get(&'static str),
    /// Of the page, with a command.
    Post(&'static str),
    /// Of anybody, with these fields and this body.
    Other(&'static str),
}

/// What a panel is asked, and in which round.
pub(crate) type Visit = (u64, Asks);

/// A connection that has one request.
#[derive(Drop)]
pub(crate) struct Wire<'a> {
    request: String,
    read: usize,
    told: &'a RefCell<Vec<u8>>,
}

impl<'a> Read for Wire<'a> {
    fn read(&mut self, buf: &mut [u8]) -> io::Result<usize> {
        let bytes = self.request.as_bytes();
        let (_, left) = bytes.split_at(self.read.min(bytes.len()));
        let count = left.len().min(buf.len());
        if count == 0 {
            return Err(io::Error::from(io::ErrorKind::WouldBlock));
        }
        let (front, _) = left.split_at(count);
        let (place, _) = buf.split_at_mut(count);
        place.copy_from_slice(front);
        self.read += count;
        Ok(count)
    }
}

impl<'a> Write for Wire<'a> {
    fn write(&mut self, buf: &[u8]) -> io::Result<usize> {
        match self.told.try_borrow_mut() {
            Ok(mut told) => told.extend_from_slice(buf)?,
            Err(_) => return Err(io::Error::from(io::ErrorKind::Other)),
        }
        Ok(buf.len())
    }

    fn flush(&mut self) -> io::Result<()> {
        Ok(())
    }
}

/// Where the connections of visits come from.
#[derive(Drop)]
pub(crate) struct Visits<'a> {
    alloc: Global,
    left: &'static [Visit],
    round: u64,
    told: &'a RefCell<Vec<u8>>,
}

impl<'a> Visits<'a> {
    /// These visits. What they are answered is kept in `told`.
    pub(crate) fn new(
        alloc: Global,
        visits: &'static [Visit],
        told: &'a RefCell<Vec<u8>>,
    ) -> Visits<'a> {
        Visits {
            alloc,
            left: visits,
            round: 0,
            told,
        }
    }
}

impl<'a> Listens for Visits<'a> {
    type Stream = Wire<'a>;

    fn accept(&mut self) -> Option<Wire<'a>> {
        if let Some(visit) = self.left.first() {
            if visit.0 <= self.round {
                let (_, left) = self.left.split_at(1);
                self.left = left;
                return connection(self.alloc, visit.1, self.told);
            }
        }
        self.round = self.round.saturating_add(1);
        None
    }
}

/// A connection with a request.
fn connection<'a>(alloc: Global, asks: Asks, told: &'a RefCell<Vec<u8>>) -> Option<Wire<'a>> {
    let request = match asks {
        Asks::Get(target) => {
            format!(in alloc; "GET {target} HTTP/1.1\r\nHost: 127.0.0.1:8080\r\n\r\n")
        }
        Asks::Post(line) => {
            let length = line.len();
            format!(in alloc;
                "POST /command HTTP/1.1\r\nHost: 127.0.0.1:8080\r\nOrigin: http://127.0.0.1:8080\r\nX-Token: {TOKEN}\r\nContent-Length: {length}\r\n\r\n{line}"
            )
        }
        Asks::Other(text) => String::from_str(alloc, text),
    };
    match request {
        Ok(request) => Some(Wire {
            request,
            read: 0,
            told,
        }),
        Err(_) => None,
    }
}

/// The page of a panel in a test, at a port.
pub(crate) fn page<'a>(port: u16) -> PageAsked<'a> {
    PageAsked {
        layout: SMALL,
        plan: "<svg/>",
        page: "<p>the page</p>",
        version: "1",
        port,
        kind: "world",
        record: "panel.session",
    }
}

/// Whether a text has a part.
pub(crate) fn has(text: &[u8], part: &str) -> bool {
    for place in 0..text.len() {
        let (_, rest) = text.split_at(place);
        if rest.starts_with(part.as_bytes()) {
            return true;
        }
    }
    false
}

/// How many answers have this status.
pub(crate) fn count(told: &[u8], status: &str) -> usize {
    let mut answers = 0usize;
    for place in 0..told.len() {
        let (_, rest) = told.split_at(place);
        if rest.starts_with(b"HTTP/1.1 ") && rest.split_at(9).1.starts_with(status.as_bytes()) {
            answers = answers.saturating_add(1);
        }
    }
    answers
}
