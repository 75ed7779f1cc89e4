use libc::net::{POLLOUT, poll};
use libc::types::pollfd;
use std::io;
use std::io::{ErrorKind, Stdout, Write};
use std::os::fd::AsRawFd;

/// What a pipe that takes bytes takes without a wait (pipe(7)).
const AT_ONCE: usize = 4096;

/// In milliseconds, for a reader that goes on.
const SECOND: i32 = 1_000;

/// Whether it takes bytes or has a fault (poll(2)), within so many milliseconds.
fn is_ready(stream: Stdout, wait: i32) -> bool {
    let mut asked = [pollfd {
        fd: stream.as_raw_fd(),
        events: POLLOUT,
        revents: 0,
    }];
    poll(&mut asked, wait) > 0
}

/// Writes to a standard output. An error if that takes no bytes within a second, since nobody may
/// read them any more; the next writes then don't wait, until it takes bytes again.
#[derive(Drop)]
pub struct ReadyOut<'a, W> {
    out: &'a mut W,
    stream: Stdout,
    has_stopped: bool,
}

impl<'a, W> ReadyOut<'a, W> {
    /// Returns a writer over `out`, which writes to this stream.
    pub fn new(out: &'a mut W, stream: Stdout) -> ReadyOut<'a, W> {
        ReadyOut {
            out,
            stream,
            has_stopped: false,
        }
    }
}

impl<'a, W: Write> Write for ReadyOut<'a, W> {
    fn write(&mut self, buf: &[u8]) -> io::Result<usize> {
        let wait = if self.has_stopped { 0 } else { SECOND };
        self.has_stopped = !is_ready(self.stream, wait);
        if self.has_stopped {
            return Err(io::Error::from(ErrorKind::WouldBlock));
        }
        self.out.write(&buf[..buf.len().min(AT_ONCE)])
    }

    fn flush(&mut self) -> io::Result<()> {
        self.out.flush()
    }
}
