ghost use Rattle.std.specs.Prelude.{◌≡◌, ◌<◌, ◌≤◌, length, Some, IfSome, IfOk, OnErr};
ghost use Rattle.std.specs.Io.{ReadsAtMost};
ghost use Rattle.enq_base.specs.Causes.{HasCause};
ghost use Rattle.enq_base.specs.Causes.{one_more};

use crate::source::Source;
use enq_base::{Failed, Short};
use std::fs::{OpenFile, OpenOptions};
use std::io::Read;
use std::marker::Model;
use std::rt::Runtime;

/// A source over a file, which is opened at the first read. A file that can't be opened, or read, counts as a fault.
/// What is left of it isn't told.
#[derive(Drop)]
pub struct FileSource<R: Runtime> {
    rt: R,
    path: Short,
    file: Option<R::File>,
    faults: u64,
}

impl<R: Runtime> Model for FileSource<R> {
    ghost use Rattle.io_edge.specs.File.{FileView};

    ghost Value = { FileView };

    ghost view = { λ s. record { path = s.path; faults = s.faults } };
}

impl<R: Runtime> FileSource<R> {
    /// A source over the file of this path. Nothing is opened yet.
    pub fn new(rt: R, path: Short) -> FileSource<R>
        ensures { result ≡ record { path = path; faults = 0 } }
    {
        FileSource {
            rt,
            path,
            file: None,
            faults: 0,
        }
    }

    /// Opens the file, where it isn't open.
    fn open(&mut self)
        ensures { self.new ≡ self.old }
    {
        if self.file.is_none() {
            self.file = open_file(&self.rt, &self.path);
        }
    }

    /// Counts a fault where there is no answer.
    fn answer(&mut self, answer: Option<usize>) -> Result<usize, Failed>
        ensures same { IfOk result (λ n. answer ≡ Some n) }
        ensures cause { HasCause self.old.faults self.new.faults result }
        ensures path { self.new.path ≡ self.old.path }
        ensures counted { OnErr result (self.new.faults ≡ one_more self.old.faults) }
    {
        match answer {
            Some(n) => Ok(n),
            None => {
                self.faults = self.faults.saturating_add(1);
                Err(Failed)
            }
        }
    }
}

fn open_file<R: Runtime>(rt: &R, path: &Short) -> Option<R::File> {
    let path = str::from_utf8(path.bytes()).ok()?;
    let mut how = OpenOptions::new();
    how.read(true);
    how.open(rt, path).ok()
}

fn read_from<F: Read>(file: &mut Option<F>, into: &mut [u8]) -> Option<usize>
    ensures { IfSome result (λ n. n ≤ length into.new) }
{
    file.as_mut()?.read(into).ok()
}

impl<R: Runtime> Source for FileSource<R> {
    ghost use Rattle.std.specs.Prelude.{None};

    ghost left = { λ _. None };

    ghost faults = { λ s. s.faults };

    fn read(&mut self, into: &mut [u8]) -> Result<usize, Failed>
        requires { 0 < length into.old }
        // As every source.
        ensures bound { ReadsAtMost result into.new }
        ensures cause { HasCause self.old.faults self.new.faults result }

        ensures path { self.new.path ≡ self.old.path }
        ensures counted { OnErr result (self.new.faults ≡ one_more self.old.faults) }
    {
        self.open();
        let read = read_from(&mut self.file, into);
        self.answer(read)
    }
}
