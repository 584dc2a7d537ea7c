use enq_base::Short;
use io_edge::{
    Failed, FileSource, LineFault, LineReader, MemSink, MemSource, Sink, Source, StdSink,
    StdSource, SureSource, put_all,
};
use std::alloc::Global;
use std::fs::{create_dir, remove_dir, remove_file, write};
use std::io;
use std::io::{ErrorKind, Read, Write};
use std::test::*;

const LINES: [(&[u8], &[&[u8]]); 6] = [
    (b"", &[]),
    (b"\n", &[b""]),
    (
        b"A LOGON MILLER\nA DEQ_ALL\nA LOGOFF\n",
        &[b"A LOGON MILLER", b"A DEQ_ALL", b"A LOGOFF"],
    ),
    (
        b"A LOGON MILLER\nA DEQ_ALL\nA LOGOFF",
        &[b"A LOGON MILLER", b"A DEQ_ALL", b"A LOGOFF"],
    ),
    (b"A\n\nB", &[b"A", b"", b"B"]),
    (b"A\r\n\n", &[b"A\r", b""]),
];

// Whether a reader gives this line so many times.
fn gives<S: Source>(reader: &mut LineReader, source: &mut S, line: &[u8], times: u32) -> bool {
    for _ in 0..times {
        if reader.next(source) != Ok(true) || reader.line() != line {
            return false;
        }
    }
    true
}

fn gives_all<S: Source>(reader: &mut LineReader, source: &mut S, lines: &[&[u8]]) -> bool {
    for line in lines {
        if !gives(reader, source, *line, 1) {
            return false;
        }
    }
    reader.number() as usize == lines.len()
}

// Whether a reader has this answer from now on.
fn ends<S: Source>(reader: &mut LineReader, source: &mut S, end: Result<bool, LineFault>) -> bool {
    reader.next(source) == end && reader.next(source) == end
}

fn is_read(alloc: Global, script: &[u8], lines: &[&[u8]]) -> Result<bool, Fail> {
    let mut source = MemSource::new(script.to_vec(alloc)?, Vec::new(alloc))?;
    let mut reader = LineReader::new();
    Ok(gives_all(&mut reader, &mut source, lines) && ends(&mut reader, &mut source, Ok(false)))
}

// The first of these scripts that is read as other lines.
fn misread(
    alloc: Global,
    scripts: &[(&'static [u8], &'static [&'static [u8]])],
) -> Result<Option<&'static [u8]>, Fail> {
    for (script, lines) in scripts {
        if !is_read(alloc, *script, *lines)? {
            return Ok(Some(*script));
        }
    }
    Ok(None)
}

#[test]
fn scripts_are_read_line_by_line(rt: HostRuntime) -> Result<(), Fail> {
    assert_eq!(rt; misread(rt.alloc(), &LINES)?, None);
    Ok(())
}

// Whether 200,000 empty lines with this behind them are read, and then have this end.
fn is_long_read(alloc: Global, last: &[u8], end: Result<bool, LineFault>) -> Result<bool, Fail> {
    let mut script = vec![in alloc; b'\n'; 200_000]?;
    script.extend_from_slice(last)?;
    let mut source = SureSource::new(script)?;
    let mut reader = LineReader::new();
    Ok(
        gives(&mut reader, &mut source, b"", 200_000)
            && reader.number() == 200_000
            && ends(&mut reader, &mut source, end),
    )
}

#[test]
fn a_script_has_at_most_200000_lines(rt: HostRuntime) -> Result<(), Fail> {
    assert!(rt; is_long_read(rt.alloc(), b"", Ok(false))?);
    assert!(rt; is_long_read(rt.alloc(), b"\n", Err(LineFault::TooMany))?);
    Ok(())
}

// What is put, and whether that succeeds where the second and the fourth write fail.
const WRITES: [(&[u8], bool); 5] = [
    (b"1 OK\n", true),
    (b"2 OK\n", false),
    (b"3 OK\n", true),
    (b"4 OK\n", false),
    (b"", true),
];

fn puts_all<T: Sink>(sink: &mut T, writes: &[(&[u8], bool)]) -> bool {
    for (bytes, is_put) in writes {
        if put_all(sink, *bytes).is_ok() != *is_put {
            return false;
        }
    }
    true
}

fn fails_as_listed(alloc: Global) -> Result<bool, Fail> {
    let mut sink = MemSink::new(alloc, [2, 4].to_vec(alloc)?)?;
    Ok(
        puts_all(&mut sink, &WRITES)
            && sink.write(b"5") == Ok(1)
            && sink.bytes() == b"1 OK\n3 OK\n5".as_slice()
            && sink.refused() == 0,
    )
}

#[test]
fn listed_writes_fail(rt: HostRuntime) -> Result<(), Fail> {
    assert!(rt; fails_as_listed(rt.alloc())?);
    Ok(())
}

// So many lines of 1,000 bytes.
fn long_lines(alloc: Global, count: u32) -> Result<Vec<u8>, Fail> {
    let mut script = Vec::new(alloc);
    for _ in 0..count {
        script.extend_from_slice(&[b'X'; 1000])?;
        script.push(b'\n')?;
    }
    Ok(script)
}

fn gives_long_lines(script: &[u8], count: u32) -> bool {
    let mut source = StdSource::new(script);
    let mut reader = LineReader::new();
    gives(&mut reader, &mut source, &[b'X'; 1000], count)
        && ends(&mut reader, &mut source, Ok(false))
}

fn are_long_lines_read(alloc: Global, count: u32) -> Result<bool, Fail> {
    let script = long_lines(alloc, count)?;
    Ok(gives_long_lines(&script, count))
}

#[test]
fn a_reader_of_std_is_read_by_lines(rt: HostRuntime) -> Result<(), Fail> {
    assert!(rt; are_long_lines_read(rt.alloc(), 8)?);
    Ok(())
}

const LINES_PUT: [(&[u8], bool); 2] = [(b"1 OK\n", true), (b"2 OK\n", true)];

fn are_put(alloc: Global, wanted: &[u8]) -> bool {
    let mut written = Vec::new(alloc);
    puts_all(&mut StdSink::new(&mut written), &LINES_PUT) && written.as_slice() == wanted
}

#[test]
fn a_writer_of_std_takes_all_bytes(rt: HostRuntime) {
    assert!(rt; are_put(rt.alloc(), b"1 OK\n2 OK\n"));
}

/// A reader that gives two bytes a call, and fails at one call.
#[derive(Drop)]
struct Halting<'a> {
    rest: &'a [u8],
    calls: u32,
    fails: u32,
}

impl<'a> Read for Halting<'a> {
    fn read(&mut self, into: &mut [u8]) -> io::Result<usize> {
        self.calls = self.calls.saturating_add(1);
        if self.calls == self.fails {
            return Err(io::Error::from(ErrorKind::Other));
        }
        let count = into.len().min(2);
        self.rest.read(&mut into[..count])
    }
}

// Whether a source gives these bytes, a part a call.
fn gives_parts<S: Source>(source: &mut S, parts: &[&[u8]]) -> bool {
    for part in parts {
        let mut into = [0; 8];
        match source.read(&mut into) {
            Ok(count) if into.get(..count) == Some(*part) => {}
            _ => return false,
        }
    }
    true
}

const HALTED: [&[u8]; 2] = [b"DE", b""];

fn is_halted(source: &mut StdSource<Halting>) -> bool {
    let mut reader = LineReader::new();
    gives(&mut reader, source, b"AB", 1) && reader.next(source) == Err(LineFault::Failed)
}

#[test]
fn a_reader_of_std_that_fails_is_a_fault(rt: HostRuntime) {
    let mut source = StdSource::new(Halting {
        rest: b"AB\nCDE",
        calls: 0,
        fails: 3,
    });
    let is_halted = is_halted(&mut source);
    assert!(rt; is_halted && gives_parts(&mut source, &HALTED));
}

/// A writer that takes two bytes a call, as long as it has room, and shows how many of them were flushed.
#[derive(Drop)]
struct Narrow {
    room: usize,
    taken: usize,
    flushed: usize,
    is_flushable: bool,
}

impl Write for Narrow {
    fn write(&mut self, from: &[u8]) -> io::Result<usize> {
        let count = from.len().min(2).min(self.room);
        self.room -= count;
        self.taken = self.taken.saturating_add(count);
        Ok(count)
    }

    fn flush(&mut self) -> io::Result<()> {
        if !self.is_flushable {
            return Err(io::Error::from(ErrorKind::Other));
        }
        self.flushed = self.taken;
        Ok(())
    }
}

// Room, whether a flush succeeds, whether all was put, and how many bytes were taken and flushed.
type Flush = (usize, bool, bool, usize, usize);

const FLUSHES: [Flush; 4] = [
    (9, true, true, 5, 5),
    (3, true, false, 3, 3),
    (0, true, false, 0, 0),
    (9, false, false, 2, 0),
];

fn is_flushed(flush: &Flush) -> bool {
    let (room, is_flushable, is_put, taken, flushed) = *flush;
    let mut writer = Narrow {
        room,
        taken: 0,
        flushed: 0,
        is_flushable,
    };
    let answer = put_all(&mut StdSink::new(&mut writer), b"1 OK\n");
    answer.is_ok() == is_put && writer.taken == taken && writer.flushed == flushed
}

fn not_flushed(flushes: &[Flush]) -> Option<Flush> {
    for flush in flushes {
        if !is_flushed(flush) {
            return Some(*flush);
        }
    }
    None
}

#[test]
fn a_writer_of_std_is_flushed(rt: HostRuntime) {
    assert_eq!(rt; not_flushed(&FLUSHES), None);
}

fn file_source(rt: HostRuntime, path: &str) -> Result<FileSource<HostRuntime>, Fail> {
    let path = Short::new(path.as_bytes()).ok_or("a path")?;
    Ok(FileSource::new(rt, path))
}

const FILE_PARTS: [&[u8]; 3] = [b"max_lock", b"s = 2", b""];

// Whether the file is read that is written once its source is there. It is opened at the first read, and not before.
fn is_file_read(rt: HostRuntime, path: &str) -> Result<bool, Fail> {
    let mut source = file_source(rt, path)?;
    write(&rt, path, "max_locks = 2")?;
    Ok(gives_parts(&mut source, &FILE_PARTS))
}

const FILE: &str = "a_file_is_read_to_its_end.txt";

#[test]
fn a_file_is_read_to_its_end(rt: HostRuntime) -> Result<(), Fail> {
    assert!(rt; is_file_read(rt, FILE)?);
    remove_file(&rt, FILE)?;
    Ok(())
}

fn is_refused(rt: HostRuntime, path: &str) -> Result<bool, Fail> {
    let mut source = file_source(rt, path)?;
    let mut into = [0; 8];
    Ok(source.read(&mut into) == Err(Failed) && source.read(&mut into) == Err(Failed))
}

const FOLDER: &str = "what_is_no_file_cannot_be_read";

#[test]
fn what_is_no_file_cannot_be_read(rt: HostRuntime) -> Result<(), Fail> {
    create_dir(&rt, FOLDER)?;
    assert!(rt; is_refused(rt, FOLDER)?);
    assert!(rt; is_refused(rt, "no such file")?);
    assert!(rt; is_refused(rt, "no such folder/file")?);
    remove_dir(&rt, FOLDER)?;
    Ok(())
}
