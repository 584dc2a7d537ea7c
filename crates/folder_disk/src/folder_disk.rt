ghost use Rattle.std.specs.Prelude.{◌≡◌, ◌≤◌, length, IfOk, OnOk, OnErr};
ghost use Rattle.enq_base.specs.Causes.{HasCause, one_more};

use bk_disk::{Disk, FileDisk};
use enq_base::{Failed, Short};
use std::fs::{OpenFile, OpenOptions};
use std::marker::Model;
use std::rt::Runtime;

/// A disk over a file that may have to be made. Its first sync syncs the folder too, so that the file's name is kept as
/// its bytes are. It doesn't tell what it holds.
#[derive(Drop)]
pub struct FolderDisk<R: Runtime> {
    rt: R,
    path: Short,
    folder: Short,
    disk: FileDisk<R>,
    stands: bool,
    faults: u64,
}

impl<R: Runtime> Model for FolderDisk<R> {
    ghost use Rattle.folder_disk.specs.Folder.{FolderView};

    ghost Value = { FolderView };

    ghost view = { λ d. record { path = d.path; folder = d.folder; faults = d.faults } };
}

impl<R: Runtime + Copy> FolderDisk<R> {
    /// A disk over the file of this path, in this folder. Nothing is opened yet.
    pub fn new(rt: R, path: Short, folder: Short) -> FolderDisk<R>
        ensures { result ≡ record { path = path; folder = folder; faults = 0 } }
    {
        FolderDisk {
            rt,
            path,
            folder,
            disk: FileDisk::new(rt, path),
            stands: false,
            faults: 0,
        }
    }
}

impl<R: Runtime> FolderDisk<R> {
    /// Counts a fault where there is no answer.
    fn counted<T: Drop>(&mut self, answer: Result<T, Failed>) -> Result<T, Failed>
        ensures same { IfOk result (λ x. answer ≡ Ok x) }
        ensures cause { HasCause self.old.faults self.new.faults result }
        ensures counted { OnErr result (self.new ≡ record self.old { faults = one_more self.old.faults }) }
        ensures quiet { OnOk result (self.new ≡ self.old) }
    {
        if answer.is_err() {
            self.faults = self.faults.saturating_add(1);
        }
        answer
    }

    /// Syncs the folder, where it wasn't synced before.
    fn stand(&mut self) -> Result<(), Failed>
        ensures { self.new ≡ self.old }
    {
        if !self.stands {
            sync_folder(&self.rt, &self.folder)?;
            self.stands = true;
        }
        Ok(())
    }
}

fn sync_folder<R: Runtime>(rt: &R, folder: &Short) -> Result<(), Failed> {
    let Ok(path) = str::from_utf8(folder.bytes()) else {
        return Err(Failed);
    };
    let Ok(folder) = OpenOptions::new().read(true).open(rt, path) else {
        return Err(Failed);
    };
    match folder.sync_all() {
        Ok(()) => Ok(()),
        Err(_) => Err(Failed),
    }
}

impl<R: Runtime> Disk for FolderDisk<R> {
    ghost use Rattle.std.specs.Prelude.{false, [], ⊤};

    ghost tells = { false };

    ghost reads = { λ d. [] };

    ghost may_leave = { λ d c. ⊤ };

    ghost faults = { λ d. d.faults };

    ghost reads_left = { λ d t. tt };

    fn length(&mut self) -> Result<u64, Failed>
        // As every disk.
        ensures cause { HasCause self.old.faults self.new.faults result }

        ensures places { self.new ≡ record self.old { faults = self.new.faults } }
        ensures counted { OnErr result (self.new.faults ≡ one_more self.old.faults) }
    {
        let length = self.disk.length();
        self.counted(length)
    }

    fn read_at(&mut self, at: u64, into: &mut [u8]) -> Result<usize, Failed>
        // As every disk.
        ensures within { IfOk result (λ n. n ≤ length into.old) }
        ensures cause { HasCause self.old.faults self.new.faults result }

        ensures places { self.new ≡ record self.old { faults = self.new.faults } }
        ensures counted { OnErr result (self.new.faults ≡ one_more self.old.faults) }
    {
        let read = self.disk.read_at(at, into);
        self.counted(read)
    }

    fn write_at(&mut self, at: u64, from: &[u8]) -> Result<(), Failed>
        // As every disk.
        ensures cause { HasCause self.old.faults self.new.faults result }

        ensures places { self.new ≡ record self.old { faults = self.new.faults } }
        ensures counted { OnErr result (self.new.faults ≡ one_more self.old.faults) }
    {
        let done = self.disk.write_at(at, from);
        self.counted(done)
    }

    fn cut(&mut self, length: u64) -> Result<(), Failed>
        // As every disk.
        ensures cause { HasCause self.old.faults self.new.faults result }

        ensures places { self.new ≡ record self.old { faults = self.new.faults } }
        ensures counted { OnErr result (self.new.faults ≡ one_more self.old.faults) }
    {
        let done = self.disk.cut(length);
        self.counted(done)
    }

    fn sync(&mut self) -> Result<(), Failed>
        // As every disk.
        ensures cause { HasCause self.old.faults self.new.faults result }

        ensures places { self.new ≡ record self.old { faults = self.new.faults } }
        ensures counted { OnErr result (self.new.faults ≡ one_more self.old.faults) }
    {
        let mut done = self.disk.sync();
        if done.is_ok() {
            done = self.stand();
        }
        self.counted(done)
    }
}
