//! Captures, in hexadecimal digits.

use crate::asked::Asked;
use node_record::{NodeEnds, node_capture};
use station_record::capture_session;
use std::alloc::Global;
use std::io;
use std::io::Write;

/// How many bytes stand in a line.
const ROW: usize = 32;

/// Writes the capture of a session, the fault if there is one, and the status.
pub(crate) fn show_session<W: Write>(
    alloc: Global,
    asked: Asked<'_>,
    out: &mut W,
) -> io::Result<()> {
    let mut file = Vec::new(alloc);
    let mut told = Vec::new(alloc);
    let status = capture_session(alloc, asked.layout, asked.text, &[], &mut file, &mut told);
    write_digits(&file, out)?;
    out.write_all(&told)?;
    writeln!(out, "status {status}")
}

/// Writes the capture of the record of a node, or that there is none.
pub(crate) fn show_node<W: Write>(alloc: Global, asked: Asked<'_>, out: &mut W) -> io::Result<()> {
    let ends = NodeEnds {
        first: &[],
        second: &[],
    };
    match node_capture(alloc, asked.layout, asked.word, asked.text, ends) {
        Ok(file) => write_digits(&file, out),
        Err(_) => out.writeln("no capture"),
    }
}

/// Writes bytes in hexadecimal digits, 32 bytes in a line.
fn write_digits<W: Write>(bytes: &[u8], out: &mut W) -> io::Result<()> {
    for row in bytes.chunks(ROW) {
        for byte in row {
            let byte = *byte;
            write!(out, "{byte:02x}")?;
        }
        out.writeln("")?;
    }
    Ok(())
}
