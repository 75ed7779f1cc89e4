ghost use Rattle.std.specs.Prelude.{◌≡◌, IfOk};
ghost use Rattle.cs_crontab.specs.Command.{parts_from, pieces_of};
ghost use Rattle.cs_command.specs.Locks.{IsLock, alone, lock_of, real_path};

use crate::flock::call_in;
use crate::named::names_lock;
use crate::paths::{behind_var, is_below};
use cs_civil::Bytes;
use cs_crontab::command_parts;
use cs_history::Mode;
use std::alloc::{AllocError, Global};

/// The lock that a command holds while it runs.
#[derive(Drop)]
pub enum Lock {
    /// None, and the command names no program that locks files.
    Absent,
    /// That of the file, in this mode.
    Of(Bytes, Mode),
    /// Unknown: the command names a program that locks files, but isn't a plain call of flock(1).
    Unread,
}

fn shell_text(alloc: Global, command: &[u8]) -> Result<Option<Bytes>, AllocError>
    ensures { IfOk result (λ text. text ≡ alone (parts_from (pieces_of command.now))) }
{
    let (text, input) = command_parts(alloc, command)?;
    match input {
        None => Ok(Some(text)),
        Some(_) => Ok(None),
    }
}

/// The path without the links /var/run and /var/lock.
#[tactic(auto, unfolding(crate::specs::Locks::real_path))]
fn real_path(alloc: Global, path: &[u8]) -> Result<Vec<u8>, AllocError>
    ensures { IfOk result (λ file. file.items ≡ real_path path.now) }
{
    let mut file = Vec::new(alloc);
    if is_below(b"/var/lock/", path) {
        file.extend_from_slice(b"/run".as_slice())?;
    }
    file.extend_from_slice(behind_var(path))?;
    Ok(file)
}

/// The file and the mode of the lock that a command holds by a plain call of flock(1). The only
/// error is out of memory.
pub fn own_lock(alloc: Global, command: &[u8]) -> Result<Option<(Bytes, Mode)>, AllocError>
    ensures { IfOk result (λ lock. lock ≡ lock_of command.now) }
{
    let Some(text) = shell_text(alloc, command)? else {
        return Ok(None);
    };
    match call_in(text.as_slice()) {
        Some(((path, mode), _)) => {
            let file = real_path(alloc, path)?;
            Ok(Some((Bytes::from_vec(file), mode)))
        }
        None => Ok(None),
    }
}

/// The lock that the command holds while it runs. The only error is out of memory.
pub fn lock_of(alloc: Global, command: &[u8]) -> Result<Lock, AllocError>
    ensures { IfOk result (IsLock command.now) }
{
    if let Some((file, mode)) = own_lock(alloc, command)? {
        return Ok(Lock::Of(file, mode));
    }
    if names_lock(command) {
        Ok(Lock::Unread)
    } else {
        Ok(Lock::Absent)
    }
}
