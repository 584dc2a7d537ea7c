ghost use Rattle.std.specs.Prelude.{◌≡◌, ◌≤◌, length, Some, IfSome, IfOk, OnErr};
ghost use Rattle.enq_base.specs.Causes.{HasCause};
ghost use Rattle.enq_base.specs.Causes.{one_more};

use crate::disk::Disk;
use enq_base::{Failed, Short};
use std::fs::{OpenFile, OpenOptions};
use std::io::{Read, Seek, SeekFrom, Write};
use std::marker::Model;
use std::rt::Runtime;

/// A disk over a file, which is opened or made at the first call. It doesn't tell what it holds.
#[derive(Drop)]
pub struct FileDisk<R: Runtime> {
    rt: R,
    path: Short,
    file: Option<R::File>,
    faults: u64,
}

impl<R: Runtime> Model for FileDisk<R> {
    ghost use Rattle.bk_disk.specs.File.{FileView};

    ghost Value = { FileView };

    ghost view = { λ d. record { path = d.path; faults = d.faults } };
}

impl<R: Runtime> FileDisk<R> {
    /// A disk over the file of this path. Nothing is opened yet.
    pub fn new(rt: R, path: Short) -> FileDisk<R>
        ensures { result ≡ record { path = path; faults = 0 } }
    {
        FileDisk {
            rt,
            path,
            file: None,
            faults: 0,
        }
    }

    /// Opens or makes the file, where it isn't open.
    fn open(&mut self)
        ensures { self.new ≡ self.old }
    {
        if self.file.is_none() {
            self.file = open_file(&self.rt, &self.path);
        }
    }

    /// Counts a fault where there is no answer.
    fn answer<T: Drop>(&mut self, answer: Option<T>) -> Result<T, Failed>
        ensures same { IfOk result (λ x. answer ≡ Some x) }
        ensures cause { HasCause self.old.faults self.new.faults result }
        ensures path { self.new.path ≡ self.old.path }
        ensures counted { OnErr result (self.new.faults ≡ one_more self.old.faults) }
    {
        match answer {
            Some(x) => Ok(x),
            None => {
                self.faults = self.faults.saturating_add(1);
                Err(Failed)
            }
        }
    }
}

fn open_file<R: Runtime>(rt: &R, path: &Short) -> Option<R::File> {
    let path = str::from_utf8(path.bytes()).ok()?;
    let mut how = OpenOptions::new();
    how.read(true).write(true).create(true);
    how.open(rt, path).ok()
}

fn length_of<F: OpenFile>(file: &Option<F>) -> Option<u64> {
    let metadata = file.as_ref()?.metadata().ok()?;
    Some(metadata.len())
}

fn read_from<F: Read + Seek>(file: &mut Option<F>, at: u64, into: &mut [u8]) -> Option<usize>
    ensures { IfSome result (λ n. n ≤ length into.old) }
{
    let file = file.as_mut()?;
    file.seek(SeekFrom::Start(at)).ok()?;
    read_up_to(file, into)
}

/// Reads until the buffer is full or the file ends.
fn read_up_to<F: Read>(file: &mut F, into: &mut [u8]) -> Option<usize>
    ensures { IfSome result (λ n. n ≤ length into.old) }
{
    let mut done = 0;
    while done < into.len() {
        let n = file.read(&mut into[done..]).ok()?;
        if n == 0 {
            break;
        }
        done += n;
    }
    Some(done)
}

fn write_to<F: Write + Seek>(file: &mut Option<F>, at: u64, from: &[u8]) -> Option<()> {
    let file = file.as_mut()?;
    file.seek(SeekFrom::Start(at)).ok()?;
    file.write_all(from).ok()
}

fn cut_to<F: OpenFile>(file: &Option<F>, length: u64) -> Option<()> {
    file.as_ref()?.set_len(length).ok()
}

fn sync_all<F: OpenFile>(file: &Option<F>) -> Option<()> {
    file.as_ref()?.sync_all().ok()
}

impl<R: Runtime> Disk for FileDisk<R> {
    ghost use Rattle.std.specs.Prelude.{false, [], ⊤};

    ghost tells = { false };

    ghost reads = { λ d. [] };

    ghost may_leave = { λ d c. ⊤ };

    ghost faults = { λ d. d.faults };

    ghost reads_left = { λ d t. tt };

    fn length(&mut self) -> Result<u64, Failed>
        // As every disk.
        ensures cause { HasCause self.old.faults self.new.faults result }

        ensures path { self.new.path ≡ self.old.path }
        ensures counted { OnErr result (self.new.faults ≡ one_more self.old.faults) }
    {
        self.open();
        let length = length_of(&self.file);
        self.answer(length)
    }

    fn read_at(&mut self, at: u64, into: &mut [u8]) -> Result<usize, Failed>
        // As every disk.
        ensures within { IfOk result (λ n. n ≤ length into.old) }
        ensures cause { HasCause self.old.faults self.new.faults result }

        ensures path { self.new.path ≡ self.old.path }
        ensures counted { OnErr result (self.new.faults ≡ one_more self.old.faults) }
    {
        self.open();
        let read = read_from(&mut self.file, at, into);
        self.answer(read)
    }

    fn write_at(&mut self, at: u64, from: &[u8]) -> Result<(), Failed>
        // As every disk.
        ensures cause { HasCause self.old.faults self.new.faults result }

        ensures path { self.new.path ≡ self.old.path }
        ensures counted { OnErr result (self.new.faults ≡ one_more self.old.faults) }
    {
        self.open();
        let done = write_to(&mut self.file, at, from);
        self.answer(done)
    }

    fn cut(&mut self, length: u64) -> Result<(), Failed>
        // As every disk.
        ensures cause { HasCause self.old.faults self.new.faults result }

        ensures path { self.new.path ≡ self.old.path }
        ensures counted { OnErr result (self.new.faults ≡ one_more self.old.faults) }
    {
        self.open();
        let done = cut_to(&self.file, length);
        self.answer(done)
    }

    fn sync(&mut self) -> Result<(), Failed>
        // As every disk.
        ensures cause { HasCause self.old.faults self.new.faults result }

        ensures path { self.new.path ≡ self.old.path }
        ensures counted { OnErr result (self.new.faults ≡ one_more self.old.faults) }
    {
        self.open();
        let done = sync_all(&self.file);
        self.answer(done)
    }
}
