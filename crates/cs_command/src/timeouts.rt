//! The time after which timeout(1) ends a command.
ghost use Rattle.std.specs.Prelude.{◌≡◌, option_map};
ghost use Rattle.cs_command.specs.Timeouts.{asked_for, behind_signal, kill_at, limit_at, limit_for};
ghost use Rattle.cs_command.specs.Timeouts.{limit_in, program_of, run_in, time_limit};

use crate::durations::seconds_of;
use crate::flock::{call_in, is_program};
use crate::fronts::behind_fronts;
use crate::named::{Kind, count_of, is_own, names_lock};
use crate::words::{behind_word, first_word, is_one_of, word_at};
use cs_plan::MAX_MINUTES;

// ---- one call of timeout(1)

#[tactic(auto, unfolding(crate::specs::Timeouts::behind_signal))]
fn behind_signal(text: &[u8]) -> &[u8]
    ensures { result.now ≡ behind_signal text.now }
{
    let behind = behind_word(text);
    if first_word(text) == b"-s".as_slice() && is_one_of(b"TERM INT KILL", first_word(behind)) {
        return behind_word(behind);
    }
    text
}

fn kill_at(text: &[u8]) -> (Option<u32>, &[u8])
    ensures seconds { result.0 ≡ (kill_at text.now).0 }
    ensures behind { result.1.now ≡ (kill_at text.now).1 }
{
    if first_word(text) == b"-k".as_slice() {
        let time = behind_word(text);
        return (seconds_of(first_word(time)), behind_word(time));
    }
    (Some(0), text)
}

#[tactic(auto, unfolding(crate::specs::Timeouts::limit_for))]
fn limit_for(waits: bool, seconds: Option<u32>, kill: Option<u32>) -> Option<u64>
    ensures { result ≡ limit_for waits seconds kill }
{
    let more = if waits { 2 } else { 1 };
    match (seconds, kill) {
        (Some(seconds), Some(kill)) if seconds != 0 => Some(
            (u64::from(seconds) + u64::from(kill)).div_ceil(60) + more,
        ),
        _ => None,
    }
}

// ---- the command

#[tactic(auto, unfolding(crate::specs::Timeouts::limit_of))]
fn limit_at(waits: bool, text: &[u8]) -> Option<u64>
    ensures { result ≡ limit_at (waits, text.now) }
{
    if !is_one_of(b"timeout /bin/timeout /usr/bin/timeout", first_word(text)) {
        return None;
    }
    let rest = behind_word(text);
    let (kill, behind) = kill_at(behind_signal(rest));
    let duration = behind_signal(behind);
    if !is_program(behind_word(duration)) || count_of(Kind::Leaves, rest) != 0 {
        return None;
    }
    limit_for(waits, seconds_of(first_word(duration)), kill)
}

#[tactic(auto, unfolding(crate::specs::Timeouts::run_in))]
fn run_in(text: &[u8]) -> Option<(bool, &[u8])>
    ensures { option_map (λ run. (run.0, run.1.now)) result ≡ run_in text.now }
{
    if text.contains(&b'%') {
        return None;
    }
    if !names_lock(text) {
        return Some((false, behind_fronts(text)));
    }
    match call_in(text) {
        Some(((_, mode), behind)) => Some((mode.waits(), behind)),
        None => None,
    }
}

/// The program that the command runs after settings, guards, its lock and nice(1); none if it may
/// run others.
pub fn program_of(command: &[u8]) -> Option<&[u8]>
    ensures { option_map (λ word. word.now) result ≡ program_of command.now }
{
    let (_, behind) = run_in(command)?;
    let behind = behind_fronts(behind);
    let (word, _) = word_at(behind)?;
    if is_program(behind) && is_own(word) && count_of(Kind::Limits, command) == 0 {
        return Some(word);
    }
    None
}

/// The limit in minutes that the one timeout(1) of the text sets.
#[tactic(auto, unfolding(crate::specs::Timeouts::limit_in))]
pub fn limit_in(text: &[u8]) -> Option<u64>
    ensures { result ≡ limit_in text.now }
{
    if count_of(Kind::Limits, text) != 1 {
        return None;
    }
    match run_in(text) {
        Some((waits, behind)) => limit_at(waits, behind),
        None => None,
    }
}

/// Returns the limit in minutes that timeout(1), the last program before the command's own, sets;
/// none if no job may have it.
pub fn time_limit(command: &[u8]) -> Option<u64>
    ensures { result ≡ time_limit command.now }
{
    match limit_in(command) {
        Some(minutes) if minutes >= 1 && minutes <= u64::from(MAX_MINUTES) => Some(minutes),
        _ => None,
    }
}

/// The longest time of a run in minutes: the limit of timeout(1), else the asked one.
pub fn asked_for(asked: u64, command: &[u8]) -> u64
    ensures { result ≡ asked_for asked command.now }
{
    time_limit(command).unwrap_or(asked)
}

/// Whether timeout(1) ends the command by KILL.
pub fn is_killed(command: &[u8]) -> bool {
    let Some((_, behind)) = run_in(command) else {
        return false;
    };
    let options = behind_word(behind);
    let signal = first_word(behind_word(options));
    !matches!(kill_at(behind_signal(options)).0, Some(0))
        || first_word(options) == b"-s".as_slice() && signal == b"KILL".as_slice()
}
