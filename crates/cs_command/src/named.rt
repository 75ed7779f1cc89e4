//! The programs that a text names, whatever a shell makes of it.
ghost use Rattle.std.specs.Prelude.{◌≡◌};
ghost use Rattle.cs_command.specs.Words.{count_of, is_kind, is_leaver, is_own};
ghost use Rattle.cs_command.specs.Words.{is_parting, is_runner, name_from, names_lock};

use crate::fronts::begins_with;
use crate::words::is_one_of;

/// What a program does that matters to a lock.
#[derive(Clone, Copy)]
pub(crate) enum Kind {
    /// It locks files.
    Locks,
    /// It may give up a lock before it ends, close descriptors, run others, or remove files.
    Leaves,
    /// It is timeout(1).
    Limits,
}

#[tactic(auto, unfolding(crate::specs::Words::name_from))]
fn name_of(word: &[u8]) -> &[u8]
    ensures { result.now ≡ name_from word.now word.now }
{
    let mut name = word;
    let mut rest = word;
    while let [byte, others @ ..] = rest {
        if *byte == b'/' {
            name = others;
        }
        rest = others;
    }
    name
}

#[tactic(auto, unfolding(crate::specs::Words::is_leaver))]
fn is_leaver(name: &[u8]) -> bool
    ensures { result ≡ is_leaver name.now }
{
    let names =
        b"sudo doas su ssh at batch systemd-run start-stop-daemon screen tmux script docker \
        podman setsid nohup sh bash env xargs rm mv unlink daemonize";
    is_one_of(names, name)
}

fn is_runner(name: &[u8]) -> bool
    ensures { result ≡ is_runner name.now }
{
    b"run-parts python perl php ruby node java dash ksh zsh"
        .split(|byte| *byte == b' ')
        .any(|known| name.starts_with(known))
}

#[tactic(auto, unfolding(crate::specs::Words::is_own))]
pub(crate) fn is_own(word: &[u8]) -> bool
    ensures { result ≡ is_own word.now }
{
    let name = name_of(word);
    (begins_with(b'/', word) || name == word) && !is_leaver(name) && !is_runner(name)
}

#[tactic(auto, unfolding(crate::specs::Words::is_kind, crate::specs::Words::is_locker))]
fn is_kind(kind: Kind, word: &[u8]) -> bool
    ensures { result ≡ is_kind kind word.now }
{
    let lockers =
        b"flock lockfile lockfile-create dotlockfile setlock s6-setlock chpst run-one solo \
        lckdo with-lock-ex sem lockrun";
    match kind {
        Kind::Locks => { word.ends_with(b".flock".as_slice()) || is_one_of(lockers, name_of(word)) }
        Kind::Leaves => is_leaver(name_of(word)),
        Kind::Limits => name_of(word) == b"timeout".as_slice(),
    }
}

#[tactic(auto, unfolding(crate::specs::Words::is_parting))]
fn is_parting(byte: u8) -> bool
    ensures { result ≡ is_parting byte }
{
    !(byte.is_ascii_alphanumeric() || b"/._-+".as_slice().contains(&byte))
}

pub(crate) fn count_of(kind: Kind, text: &[u8]) -> usize
    ensures { result ≡ count_of kind text.now }
{
    text.split(|byte| is_parting(*byte))
        .filter(|word| is_kind(kind, word))
        .count()
}

/// Whether the text names a program that locks files.
pub fn names_lock(text: &[u8]) -> bool
    ensures { result ≡ names_lock text.now }
{
    count_of(Kind::Locks, text) != 0
}
