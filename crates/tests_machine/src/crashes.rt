//! Stamps on a machine that ends in the middle of a write.
use crate::scratch::{new_folder, put, remove_folder};
use cs_civil::Day;
use cs_device::{Stamp, StampStore};
use cs_machine::StampsFolder;
use std::alloc::{Allocator, Global};
use std::cell::Cell;
use std::fs::{Metadata, OpenFile, OpenOptions, Permissions};
use std::io;
use std::io::{ErrorKind, PipeReader, PipeWriter, Read, Seek, SeekFrom, Write};
use std::os::fd::BorrowedFd;
use std::os::unix::net::SocketAddr;
use std::path::PathBuf;
use std::process::id;
use std::rt::Files;

/// How many calls are left until the machine ends, and a digit for each that was made.
#[derive(Drop)]
struct Life {
    left: Cell<u64>,
    calls: Cell<u64>,
}

impl Life {
    fn call(&self, digit: u64) -> io::Result<()> {
        match self.left.get().checked_sub(1) {
            Some(left) => {
                self.left.set(left);
                let calls = self.calls.get().wrapping_mul(10).wrapping_add(digit);
                self.calls.set(calls);
                Ok(())
            }
            None => Err(io::Error::from(ErrorKind::Other)),
        }
    }
}

/// The machine's files, to which nothing happens once it has ended. Methods that a trait provides
/// are dearer to prove here than to pass on.
#[derive(Drop)]
struct Mortal<'a, R> {
    rt: &'a R,
    life: &'a Life,
}

#[derive(Drop)]
struct MortalFile<'a, F> {
    file: F,
    life: &'a Life,
}

impl<'a, F: Read> Read for MortalFile<'a, F> {
    fn read(&mut self, buf: &mut [u8]) -> io::Result<usize> {
        self.file.read(buf)
    }
}

impl<'a, F: Write> Write for MortalFile<'a, F> {
    fn write(&mut self, buf: &[u8]) -> io::Result<usize> {
        self.life.call(2)?;
        self.file.write(buf)
    }

    fn flush(&mut self) -> io::Result<()> {
        self.file.flush()
    }
}

impl<'a, F: Seek> Seek for MortalFile<'a, F> {
    fn seek(&mut self, to: SeekFrom) -> io::Result<u64> {
        self.file.seek(to)
    }
}

impl<'a, F: OpenFile> OpenFile for MortalFile<'a, F> {
    fn metadata(&self) -> io::Result<Metadata> {
        self.file.metadata()
    }

    fn set_len(&self, size: u64) -> io::Result<()> {
        self.file.set_len(size)
    }

    fn sync_all(&self) -> io::Result<()> {
        self.life.call(3)?;
        self.file.sync_all()
    }

    fn sync_data(&self) -> io::Result<()> {
        self.file.sync_data()
    }
}

impl<'a, R: Files> Files for Mortal<'a, R> {
    type File = MortalFile<'a, R::File>;

    type Dir = R::Dir;

    fn open_file(&self, how: &OpenOptions, path: &str) -> io::Result<MortalFile<'a, R::File>> {
        self.life.call(1)?;
        Ok(MortalFile {
            file: self.rt.open_file(how, path)?,
            life: self.life,
        })
    }

    fn open_dir(&self, path: &str) -> io::Result<R::Dir> {
        self.rt.open_dir(path)
    }

    fn metadata(&self, path: &str) -> io::Result<Metadata> {
        self.rt.metadata(path)
    }

    fn symlink_metadata(&self, path: &str) -> io::Result<Metadata> {
        self.rt.symlink_metadata(path)
    }

    fn copy(&self, from: &str, to: &str) -> io::Result<u64> {
        self.rt.copy(from, to)
    }

    fn rename(&self, from: &str, to: &str) -> io::Result<()> {
        self.life.call(4)?;
        self.rt.rename(from, to)
    }

    fn remove_file(&self, path: &str) -> io::Result<()> {
        self.rt.remove_file(path)
    }

    fn create_dir(&self, path: &str) -> io::Result<()> {
        self.rt.create_dir(path)
    }

    fn remove_dir(&self, path: &str) -> io::Result<()> {
        self.rt.remove_dir(path)
    }

    fn remove_dir_all<B: Allocator>(&self, alloc: B, path: &str) -> io::Result<()> {
        self.rt.remove_dir_all(alloc, path)
    }

    fn canonicalize<B: Allocator>(&self, alloc: B, path: &str) -> io::Result<PathBuf<B>> {
        self.rt.canonicalize(alloc, path)
    }

    fn read_link<B: Allocator>(&self, alloc: B, path: &str) -> io::Result<PathBuf<B>> {
        self.rt.read_link(alloc, path)
    }

    fn hard_link(&self, original: &str, link: &str) -> io::Result<()> {
        self.rt.hard_link(original, link)
    }

    fn set_permissions(&self, path: &str, permissions: Permissions) -> io::Result<()> {
        self.rt.set_permissions(path, permissions)
    }

    fn symlink(&self, original: &str, link: &str) -> io::Result<()> {
        self.rt.symlink(original, link)
    }

    fn pipe(&self) -> io::Result<(PipeReader, PipeWriter)> {
        self.rt.pipe()
    }

    fn chown(&self, path: &str, user: Option<u32>, group: Option<u32>) -> io::Result<()> {
        self.rt.chown(path, user, group)
    }

    fn lchown(&self, path: &str, user: Option<u32>, group: Option<u32>) -> io::Result<()> {
        self.rt.lchown(path, user, group)
    }

    fn create_dir_with_mode(&self, path: &str, mode: u32) -> io::Result<()> {
        self.rt.create_dir_with_mode(path, mode)
    }

    fn bind_unix(&self, socket: BorrowedFd<'_>, address: &SocketAddr) -> io::Result<()> {
        self.rt.bind_unix(socket, address)
    }
}

/// What a new look at a folder gives for its stamp. `None` if there is no such folder.
fn stamp<R: Files>(rt: &R, alloc: Global, folder: &str) -> Option<Stamp> {
    match StampsFolder::open(rt, alloc, folder) {
        Ok(mut store) => Some(store.read(b"job")),
        Err(_) => None,
    }
}

fn is_written<R: Files>(rt: &R, alloc: Global, folder: &str, day: Day) -> bool {
    match StampsFolder::open(rt, alloc, folder) {
        Ok(mut store) => store.write(b"job", day),
        Err(_) => false,
    }
}

fn write_in<'x, R: Files + AllocGlobal>(rt: &'x R, life: &'x Life, folder: &str, day: Day) -> bool {
    let mortal = Mortal { rt, life };
    is_written(&mortal, rt.alloc(), folder, day)
}

/// The same on a machine that ends after so many calls, and which calls it made.
fn write_until<R: Files + AllocGlobal>(rt: &R, folder: &str, day: Day, calls: u64) -> (bool, u64) {
    let life = Life {
        left: Cell::new(calls),
        calls: Cell::new(0),
    };
    let is_written = write_in(rt, &life, folder, day);
    (is_written, life.calls.get())
}

/// How many calls the machine makes, whether the write is reported as done, which calls it made,
/// and whether the new stamp stands.
type Row = (u64, (bool, u64), bool);

const ROWS: [Row; 8] = [
    (0, (false, 0), false),
    (1, (false, 1), false),
    (2, (false, 12), false),
    (3, (false, 123), false),
    (4, (false, 1_234), true),
    (5, (false, 12_341), true),
    (6, (true, 123_413), true),
    (7, (true, 123_413), true),
];

fn goes_so<R: Files + AllocGlobal>(rt: &R, folder: &str, old: Day, new: Day, row: Row) -> bool {
    let (calls, written, is_new) = row;
    let stays = if is_new { new } else { old };
    is_written(rt, rt.alloc(), folder, old)
        && write_until(rt, folder, new, calls) == written
        && stamp(rt, rt.alloc(), folder) == Some(Stamp::On(stays))
}

/// The calls: opened, written and synced beside the stamp, renamed, the folder opened and synced.
/// Before the renaming the old stamp stands, from then on the new one. What a crash leaves beside
/// it is in nobody's way.
#[test]
fn ends_in_a_write(rt: HostRuntime) {
    let folder = new_folder(&rt, "crashes", id(rt.process()));
    let folder = folder.as_str();
    let old = Day::new(19_753).expect(&rt, "a day");
    let new = Day::new(19_754).expect(&rt, "a day");
    for row in ROWS {
        assert!(rt; goes_so(&rt, folder, old, new, row), "{}", row.0);
    }
    put(&rt, folder, "job new", b"2024013");
    assert!(rt; stamp(&rt, rt.alloc(), folder) == Some(Stamp::On(new)));
    assert!(rt; is_written(&rt, rt.alloc(), folder, old));
    assert!(rt; stamp(&rt, rt.alloc(), folder) == Some(Stamp::On(old)));
    remove_folder(&rt, folder);
}
