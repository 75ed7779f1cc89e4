//! Files that are read one after the other, one of which can't be read.
ghost use Rattle.std.specs.Prelude.{◌≡◌, ◌≤◌, ◌==◌, ◌&&◌, Some, drop, if◌then◌else◌, length, map};
ghost use Rattle.std.specs.Prelude.{reverse};
ghost use Rattle.std.specs.Str.{bytes_eq};
ghost use Rattle.tests_machine.specs.Shelf.{known_at};

use cs_files::{Response, Status, find_plan};
use cs_io::{CannotRead, Inputs, Printer, Reason};
use std::io;
use std::process::Abort;

/// A file of known bytes, a path that can't be read, and empty files at all others. Each read is
/// noted.
#[derive(Drop)]
struct Shelf<'a, R: Abort + AllocGlobal> {
    rt: &'a R,
    name: &'a str,
    bytes: &'a [u8],
    rest: &'a [u8],
    broken: &'a str,
    has_failed: bool,
    reads: Vec<String>,
}

impl<'a, R: Abort + AllocGlobal> Shelf<'a, R> {
    fn new(rt: &'a R, broken: &'a str) -> Shelf<'a, R> {
        let bytes = b"{\"capacity\":1}".as_slice();
        Shelf {
            rt,
            name: "declarations",
            bytes,
            rest: bytes,
            broken,
            has_failed: false,
            reads: Vec::new(rt.alloc()),
        }
    }

    fn has_read(&self, paths: &[&str]) -> bool {
        for (read, path) in self.reads.as_slice().iter().zip(paths) {
            if read.as_str() != *path {
                return false;
            }
        }
        self.reads.len() == paths.len()
    }

    /// What the next read begins with: what is left after so many bytes; all of it after the end.
    fn rest_behind(&self, n: usize) -> &'a [u8]
        requires { n ≤ length self.now.rest.now }
        ensures { result.now ≡ (if n == 0 then self.now.bytes.now else drop n self.now.rest.now) }
    {
        if n == 0 { self.bytes } else { &self.rest[n..] }
    }
}

impl<'a, R: Abort + AllocGlobal> Inputs for Shelf<'a, R> {
    ghost whole = { λ s. known_at s.name.now s.bytes.now };

    ghost left = { λ s. known_at s.name.now s.rest.now };

    ghost failed = { λ s path. s.has_failed && bytes_eq path s.broken.now };

    ghost reads = { λ s. Some (reverse (map (λ path. path.bytes.items) s.reads.items)) };

    fn read(&mut self, path: &str, buf: &mut [u8]) -> Result<usize, CannotRead> {
        let name = String::from_str(self.rt.alloc(), path).expect(self.rt, "memory");
        self.reads.push(name).expect(self.rt, "memory");
        if path == self.broken {
            self.has_failed = true;
            return Err(CannotRead {
                reason: Reason::Unknown,
            });
        }
        if path != self.name {
            return Ok(0);
        }
        let n = self.rest.len().min(buf.len());
        buf[..n].copy_from_slice(&self.rest[..n]);
        self.rest = self.rest_behind(n);
        Ok(n)
    }
}

/// The message of a call that can't read a file; nothing if it reads all of them, one after the
/// other.
fn told<R: Abort + AllocGlobal>(rt: &R, shelf: &mut Shelf<'_, R>) -> Option<Response> {
    let (alloc, mut unheard) = (rt.alloc(), Printer::new(io::sink()));
    let (table, jobs, path) = ("crontab", Some("anacrontab"), "declarations");
    match find_plan(alloc, shelf, &mut unheard, table, jobs, path) {
        Ok(_) => None,
        Err(fault) => Some(fault.response(alloc, b"".as_slice()).expect(rt, "memory")),
    }
}

/// Whether the message is this line, for a failed device; no message for an empty line.
fn is_told(told: Option<Response>, line: &str) -> bool {
    match told {
        Some(told) => told.status() == Status::DeviceFailed && told.err() == line.as_bytes(),
        None => line.is_empty(),
    }
}

/// Three files are read one after the other, and none after one that can't be read; the message
/// names its path.
#[test]
fn files_in_their_turn(rt: HostRuntime) {
    let turn = ["crontab", "anacrontab", "declarations", "declarations"];
    for (broken, reads, line) in [
        ("", 4, ""),
        ("crontab", 1, "cronsafe: can't read crontab\n"),
        ("anacrontab", 2, "cronsafe: can't read anacrontab\n"),
        ("declarations", 3, "cronsafe: can't read declarations\n"),
    ] {
        let mut shelf = Shelf::new(&rt, broken);
        assert!(rt; is_told(told(&rt, &mut shelf), line), "{broken}");
        assert!(rt; shelf.has_read(&turn[..reads]), "{broken}");
    }
}
