//! Asking the daemon that uses a folder of stamps.
ghost use Rattle.std.specs.Prelude.{◌≡◌, ◌++◌, [], IfOk};
ghost use Rattle.cs_files.specs.Response.{complaint, status_of};
ghost use Rattle.cs_ask.specs.Asking.{MayTell, Refuses, in_front_of, refused};
ghost use Rattle.cs_files.specs.Ending.{sink};

use cs_files::{Response, Status, finish, run_out, tell};
use cs_io::Output;
use cs_machine::{FolderLock, LockFault, StampsFolder};
use std::alloc::{AllocError, Global};
use std::fs::File;
use std::rt::{Clock, Files};
use std::sync::Wait;
use std::thread;
use std::time::Duration;

/// Why a daemon doesn't do what it is asked, or its state isn't shown.
#[derive(Clone, Copy)]
pub(crate) enum Refusal {
    NoFolder,
    /// No daemon has locked the folder of stamps.
    NoDaemon,
    Unlocked,
    /// The file that asks the daemon can't be made.
    NotAsked,
    /// The daemon has ended, and another has locked the folder by now.
    Another,
    Unanswered,
    /// The folder holds no state that can be read.
    Untold,
}

impl Refusal {
    /// What is written of it, before the folder's path.
    fn text(self) -> &'static str
        ensures { result.now ≡ in_front_of self }
    {
        match self {
            Refusal::NoFolder => "no folder ",
            Refusal::NoDaemon => "no daemon uses ",
            Refusal::Unlocked => "can't lock ",
            Refusal::NotAsked => "can't write to ",
            Refusal::Another => "another daemon uses ",
            Refusal::Unanswered => "can't read the answer in ",
            Refusal::Untold => "can't read the state in ",
        }
    }

    pub(crate) fn response(self, alloc: Global, folder: &str) -> Result<Response, AllocError>
        ensures { IfOk result (λ r. r ≡ refused self folder.now) }
    {
        let mut fault = Vec::from_slice(alloc, self.text().as_bytes())?;
        fault.extend_from_slice(folder.as_bytes())?;
        let status = match self {
            Refusal::NoDaemon => Status::Unknown,
            _ => Status::DeviceFailed,
        };
        Response::fault(alloc, status, b"".as_slice(), fault.as_slice())
    }
}

/// Checks that a daemon uses a folder.
pub(crate) fn find_daemon<R: Files<File = File>>(
    rt: &R,
    alloc: Global,
    folder: &str,
) -> Result<(), Refusal> {
    if StampsFolder::open(rt, alloc, folder).is_err() {
        return Err(Refusal::NoFolder);
    }
    match FolderLock::probe(rt, alloc, folder) {
        Ok(_) => Err(Refusal::NoDaemon),
        Err(LockFault::Failed) => Err(Refusal::Unlocked),
        Err(LockFault::InUse) => Ok(()),
    }
}

/// Answers why a daemon doesn't do what it is asked.
pub(crate) fn refuse<O: Output, E: Output>(
    alloc: Global,
    refusal: Refusal,
    folder: &str,
    out: &mut O,
    err: &mut E,
) -> Status
    ensures { Refuses refusal folder.now
        (sink (O.contents out.old) (O.failed out.old))
        (sink (O.contents out.new) (O.failed out.new))
        (sink (E.contents err.old) (E.failed err.old))
        (sink (E.contents err.new) (E.failed err.new))
        (status_of result) }
{
    match refusal.response(alloc, folder) {
        Ok(response) => finish(&response, out, err),
        Err(AllocError) => run_out(err),
    }
}

/// How many milliseconds pass until a folder is looked at again.
const MILLISECONDS: u64 = 200;

/// How often a folder is looked at before a message says what is waited for: a daemon looks once a
/// second whether it is asked.
const LOOKS: u32 = 10;

fn look_again<R: Clock, T: Drop, F: Fn() -> Option<T> + Drop>(rt: &R, look: &F) -> Option<T>
    requires { F.IsAlwaysCallable look.now }
{
    thread::sleep(rt, Duration::from_millis(MILLISECONDS));
    look()
}

/// Looks until there is something, but not long.
fn wait_a_little<R: Clock, T: Drop, F: Fn() -> Option<T> + Drop>(rt: &R, look: &F) -> Option<T>
    requires { F.IsAlwaysCallable look.now }
{
    for _ in 0..LOOKS {
        if let Some(found) = look_again(rt, look) {
            return Some(found);
        }
    }
    None
}

/// Looks at a folder until there is something, and writes what it waits for if that takes long.
pub(crate) fn wait_for<R: Clock + Wait, T: Drop, F: Fn() -> Option<T> + Drop, E: Output>(
    rt: &R,
    what: &str,
    err: &mut E,
    look: F,
) -> T
    requires { F.IsAlwaysCallable look }
    ensures { MayTell what.now (sink (E.contents err.old) (E.failed err.old))
        (sink (E.contents err.new) (E.failed err.new)) }
{
    if let Some(found) = wait_a_little(rt, &look) {
        return found;
    }
    tell(err, what.as_bytes());
    for _ in rt.forever() {
        if let Some(found) = look_again(rt, &look) {
            return found;
        }
    }
    unreachable!()
}
