//! What `station line begin` does: the files of the two ends of a line are written.

use crate::INPUT;
use crate::railway_command::{layouts_of, made, tell, verdicts_on};
use line_begin::{
    Asked, NoLine, NotBegun, Refusal, Side, WrittenEnd, WrittenLine, WrittenRailway, begin,
    confirmation, end_file_name, layout_file, line_named, look, read_text, text_verdict,
};
use station_command::{BeginLineArguments, Failure, input_once, text_of};
use station_node::whole_file::DiskPlace;
use std::io;
use std::io::{BufRead, Input, Read, Write};

/// The most bytes of the line that is typed.
const LONGEST: u64 = 256;

/// `line begin RAILWAY LINE [--again]`.
pub(crate) fn begin_line<W: Write>(
    rt: &HostRuntime,
    arguments: BeginLineArguments<'_>,
    out: &mut W,
) -> Result<u8, Failure> {
    // With --again standard input is for what is typed.
    let typed = if arguments.again { INPUT } else { "" };
    input_once(&[arguments.railway, typed])?;
    let text = text_of(rt, arguments.railway)?;
    match read_text(rt.alloc(), text.as_str()) {
        Ok(railway) => begin_in(rt, arguments, &railway),
        Err(fault) => {
            let verdict = made(text_verdict(rt.alloc(), &fault, false))?;
            Ok(tell(rt, &verdict, out))
        }
    }
}

/// Begins the line in a railway, where nothing is wrong with this.
fn begin_in(
    rt: &HostRuntime,
    arguments: BeginLineArguments<'_>,
    railway: &WrittenRailway,
) -> Result<u8, Failure> {
    let BeginLineArguments {
        railway: file,
        line,
        ..
    } = arguments;
    let layouts = layouts_of(rt, file, &railway.stations)?;
    let verdicts = made(verdicts_on(rt.alloc(), &layouts, false))?;
    match line_named(rt.alloc(), railway, &layouts, &verdicts, line) {
        Ok(line) => begin_files(rt, arguments, line),
        Err(NoLine::Faulty(verdict)) => {
            // Where this can't be written, the status has to do.
            let _ = rt.stderr().write_all(&verdict.err);
            Ok(verdict.status)
        }
        Err(NoLine::Unknown) => {
            let _ = eprintln!(rt; "the railway in {file} has no line {line}");
            Ok(1)
        }
        Err(NoLine::OutOfMemory) => Err(Failure::OutOfMemory),
    }
}

/// The file of an end, beside that of the railway.
fn end_file(
    rt: &HostRuntime,
    railway: &str,
    line: &WrittenLine,
    end: &WrittenEnd,
) -> Result<String, Failure> {
    let name = made(end_file_name(rt.alloc(), &line.name, &end.station))?;
    made(layout_file(rt.alloc(), railway, name.as_str()))
}

/// Writes both files of a line.
fn begin_files(
    rt: &HostRuntime,
    arguments: BeginLineArguments<'_>,
    line: &WrittenLine,
) -> Result<u8, Failure> {
    let first_file = end_file(rt, arguments.railway, line, &line.first)?;
    let second_file = end_file(rt, arguments.railway, line, &line.second)?;
    let mut first = made(DiskPlace::new(rt, first_file.as_str()))?;
    let mut second = made(DiskPlace::new(rt, second_file.as_str()))?;
    let begun = if arguments.again {
        let typed = typed_line(rt, line)?;
        let asked = Asked::Again(without_end(typed.as_str()));
        begin(&mut first, &mut second, &line.name, asked)
    } else {
        let asked = Asked::New(look(&first), look(&second));
        begin(&mut first, &mut second, &line.name, asked)
    };
    let files = Files {
        line,
        first: first_file.as_str(),
        second: second_file.as_str(),
    };
    Ok(match begun {
        Ok(()) => tell_begun(rt, files),
        Err(why) => tell_not_begun(rt, files, &why),
    })
}

/// The line that is typed, after it was told what is asked for.
fn typed_line(rt: &HostRuntime, line: &WrittenLine) -> Result<String, Failure> {
    let wanted = confirmation(&line.name);
    let wanted = str::from_utf8(wanted.as_slice()).unwrap_or("");
    let name = line.name.as_str();
    let told = println!(rt; "line {name} begins again only where this is so; type it:\n{wanted}");
    let mut typed = String::new(rt.alloc());
    match told.and_then(|()| rt.reader().take(LONGEST).read_line(&mut typed)) {
        Ok(_) => Ok(typed),
        Err(error) if error.kind() == io::ErrorKind::OutOfMemory => Err(Failure::OutOfMemory),
        Err(_) => match String::from_str(rt.alloc(), "standard input") {
            Ok(input) => Err(Failure::File(input)),
            Err(_) => Err(Failure::OutOfMemory),
        },
    }
}

/// A line without its end.
fn without_end(line: &str) -> &str {
    line.strip_suffix('\n').unwrap_or(line)
}

/// A line, and the files of its ends.
#[derive(Clone, Copy)]
struct Files<'a> {
    line: &'a WrittenLine,
    first: &'a str,
    second: &'a str,
}

impl<'a> Files<'a> {
    /// The file of the end at a side.
    fn at(self, side: Side) -> &'a str {
        match side {
            Side::First => self.first,
            Side::Second => self.second,
        }
    }
}

/// Tells what was written, and what is to be done next.
fn tell_begun(rt: &HostRuntime, files: Files<'_>) -> u8 {
    let Files {
        line,
        first,
        second,
    } = files;
    let name = line.name.as_str();
    let here = line.first.station.as_str();
    let there = line.second.station.as_str();
    let told = println!(rt;
        "written {second}: the end of line {name} at {there}, without the token\nwritten {first}: the end of line {name} at {here}, with the token\nnext: bring each file to the machine of its end, and start both ends before either interlocking is told resume"
    );
    match told {
        Ok(()) => 0,
        Err(_) => 1,
    }
}

/// Tells why a line isn't begun.
fn tell_not_begun(rt: &HostRuntime, files: Files<'_>, why: &NotBegun) -> u8 {
    let line = files.line;
    let name = line.name.as_str();
    // Where this can't be written, the status has to do.
    let _ = match why {
        NotBegun::Refused(Refusal::There(side)) => {
            let file = files.at(*side);
            eprintln!(rt;
                "{file} is there: line {name} has begun. Where a file was lost or is an older copy, begin it again with --again"
            )
        }
        NotBegun::Refused(Refusal::Unseen(side)) => {
            let file = files.at(*side);
            eprintln!(rt; "can't see whether {file} is there")
        }
        NotBegun::Refused(Refusal::Unconfirmed) => {
            eprintln!(rt; "nothing is written: this isn't what is to be typed")
        }
        NotBegun::NotKept(side, _) => {
            let file = files.at(*side);
            eprintln!(rt;
                "can't write {file}: start no end of line {name} before it is begun again, with --again"
            )
        }
    };
    1
}
