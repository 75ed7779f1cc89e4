//! Users whose commands root starts.
ghost use Rattle.std.specs.Prelude.{◌≡◌, ◌↔◌, IfOk, IfSome, IsTrue};
ghost use Rattle.cs_machine.specs.User.{HasExpired, IsUpTo, home_named, why_not};

use crate::home::{COLON, FIELDS, Home, MOST, USER, entry_of, home_on};
use crate::machine_clock::unix_seconds;
use crate::pieces::piece;
use crate::replacing::read_first;
use std::alloc::{AllocError, Global};
use std::io::ErrorKind;
use std::os::unix::fs::MetadataExt;
use std::rt::{Clock, Files};
use std::{fs, str};

/// Why a command isn't started as its user.
#[derive(Clone, Copy)]
pub enum UserFault {
    /// `/etc/passwd` has no such user.
    Unknown,
    /// The account has expired.
    Expired,
    /// A file or the clock can't be read, or memory ran out.
    Unread,
}

impl UserFault {
    pub(crate) fn why(self) -> &'static [u8]
        ensures { result.now ≡ why_not self }
    {
        match self {
            UserFault::Unknown => b"it isn't in /etc/passwd",
            UserFault::Expired => b"the account has expired",
            UserFault::Unread => b"can't read its account",
        }
    }
}

/// In `/etc/shadow` (shadow(5)).
const ACCOUNT_FIELDS: usize = 9;

/// The day from which on an account has expired.
const EXPIRY: usize = 7;

const DAY: u64 = 86_400;

fn home_named(alloc: Global, name: &[u8], text: &[u8]) -> Result<Option<Home>, AllocError>
    ensures entry { IfOk result (λ home. home ≡ home_named name.now text.now) }
    ensures user { IfOk result (λ home. IfSome home (λ home. home.user ≡ name.now)) }
{
    match entry_of(text, FIELDS, USER, name) {
        Some(line) => home_on(alloc, line),
        None => Ok(None),
    }
}

fn is_up_to(most: u64, text: &[u8]) -> bool
    ensures { IsTrue result ↔ IsUpTo most text.now }
{
    let Ok(text) = str::from_utf8(text) else {
        return false;
    };
    match text.parse::<u64>() {
        Ok(number) => number <= most,
        Err(_) => false,
    }
}

fn has_expired(name: &[u8], text: &[u8], today: u64) -> bool
    ensures { IsTrue result ↔ HasExpired name.now text.now today }
{
    let Some(line) = entry_of(text, ACCOUNT_FIELDS, USER, name) else {
        return false;
    };
    match piece(line, COLON, EXPIRY) {
        Some(day) => is_up_to(today, day),
        None => false,
    }
}

/// None if that can't be read.
fn is_lapsed<R: Files + Clock>(rt: &R, alloc: Global, name: &[u8]) -> Option<bool> {
    let accounts = match read_first(rt, alloc, "/etc/shadow", MOST) {
        Ok(accounts) => accounts,
        // no account of this machine expires
        Err(error) if error.kind() == ErrorKind::NotFound => return Some(false),
        Err(_) => return None,
    };
    let now = unix_seconds(rt)?;
    Some(has_expired(name, accounts.as_slice(), now / DAY))
}

/// Whether this process is root's.
pub fn is_root<R: Files>(rt: &R) -> bool {
    match fs::metadata(rt, "/proc/self") {
        Ok(found) => found.uid() == 0,
        Err(_) => false,
    }
}

impl Home {
    /// Returns the name and folder of a user, by the first entry in `/etc/passwd`, if the account
    /// hasn't expired by `/etc/shadow`. A user without an entry there has no expiry; a password of
    /// `*` or `!` bars nobody.
    pub fn of_user<R: Files + Clock>(rt: &R, alloc: Global, name: &[u8]) -> Result<Home, UserFault>
        ensures { IfOk result (λ home. home.user ≡ name.now) }
    {
        let Ok(users) = read_first(rt, alloc, "/etc/passwd", MOST) else {
            return Err(UserFault::Unread);
        };
        let home = match home_named(alloc, name, users.as_slice()) {
            Ok(Some(home)) => home,
            Ok(None) => return Err(UserFault::Unknown),
            Err(AllocError) => return Err(UserFault::Unread),
        };
        match is_lapsed(rt, alloc, name) {
            Some(false) => Ok(home),
            Some(true) => Err(UserFault::Expired),
            None => Err(UserFault::Unread),
        }
    }
}
