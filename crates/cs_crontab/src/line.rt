ghost use Rattle.std.specs.Prelude.{◌≡◌, ◌==◌, ◌+◌, ◌<◌, ◌^◌, length, IfOk, IfErr};
ghost use Rattle.cs_table.specs.Setting.{begins_setting};
ghost use Rattle.cs_crontab.specs.Reading.{schedule_at, when_of, commanded, word_line, entry_of, line_of};
ghost use Rattle.cs_table.specs.Wrong.{Gives, IsWithin, marked};
ghost use Rattle.cs_crontab.specs.Grammar.{Says};
ghost use Rattle.cs_crontab.specs.Faults.{LineFails};
ghost use Rattle.cs_crontab.specs.Seen.{entry_seen};

use crate::fault::LineFault;
use crate::field::next_field;
use crate::table::When;
use crate::word::word_schedule;
use cs_schedule::{Part, Schedule};
use cs_table::setting::{begins_setting, read_setting};
use cs_table::text::{has_nul, skip_blanks, word};
use cs_table::{MAX_LINE, Wrong, marked};

/// What a line says.
#[derive(Drop)]
pub enum Entry<'a> {
    /// It is empty, blank or a comment.
    Nothing,
    /// A name and its value.
    Setting(&'a [u8], &'a [u8]),
    /// A command, and when it starts.
    Command(When, &'a [u8]),
}

#[tactic(auto, unfolding(crate::specs::Reading::schedule_at))]
fn schedule(text: &[u8]) -> Result<(Schedule, &[u8]), Wrong<LineFault>>
    ensures { Gives (λ x. (x.0, x.1.now)) result (schedule_at text.now) }
{
    let (minute, text) = next_field(Part::Minute, text)?;
    let (hour, text) = next_field(Part::Hour, text)?;
    let (dom, text) = next_field(Part::Dom, text)?;
    let (month, text) = next_field(Part::Month, text)?;
    let (dow, text) = next_field(Part::Dow, text)?;
    Ok((Schedule::new(minute, hour, dom, month, dow), text))
}

#[tactic(auto, unfolding(crate::specs::Reading::when_of))]
fn word_time(word: &[u8]) -> Result<When, LineFault>
    ensures { result ≡ when_of word.now }
{
    if word == b"reboot".as_slice() {
        return Ok(When::Reboot);
    }
    match word_schedule(word) {
        Some(schedule) => Ok(When::At(schedule)),
        None => Err(LineFault::UnknownWord),
    }
}

fn commanded(when: When, command: &[u8]) -> Result<Entry<'_>, Wrong<LineFault>>
    ensures { Gives entry_seen result (commanded when command.now) }
{
    if command.is_empty() {
        return Err(Wrong::at_end(LineFault::NoCommand));
    }
    Ok(Entry::Command(when, command))
}

/// The same for the word at the front of a text after `@`.
fn placed_time(word: &[u8], text: &[u8]) -> Result<When, Wrong<LineFault>>
    ensures { result ≡ marked (length text.now + 1) (length word.now + 1) (when_of word.now) }
{
    marked(text.len() + 1, word.len() + 1, word_time(word))
}

#[tactic(auto, unfolding(crate::specs::Reading::word_line))]
fn word_line(text: &[u8]) -> Result<Entry<'_>, Wrong<LineFault>>
    ensures { Gives entry_seen result (word_line text.now) }
{
    let (word, rest) = word(text);
    let when = placed_time(word, text)?;
    commanded(when, skip_blanks(rest))
}

#[tactic(auto, unfolding(crate::specs::Reading::entry_of))]
fn read_entry(text: &[u8]) -> Result<Entry<'_>, Wrong<LineFault>>
    ensures { Gives entry_seen result (entry_of text.now) }
{
    match text {
        [] | [b'#', ..] => Ok(Entry::Nothing),
        [b'@', rest @ ..] => word_line(rest),
        [first, ..] if begins_setting(*first) => match read_setting(text) {
            Some((name, value)) => Ok(Entry::Setting(name, value)),
            None => Err(Wrong::whole(LineFault::BadSetting, text)),
        },
        [_, ..] => {
            let (schedule, command) = schedule(text)?;
            commanded(When::At(schedule), command)
        }
    }
}

#[tactic(auto, unfolding(crate::specs::Reading::line_of))]
fn content(line: &[u8]) -> Result<Entry<'_>, Wrong<LineFault>>
    ensures { Gives entry_seen result (line_of line.now) }
{
    if line.len() > MAX_LINE {
        return Err(Wrong::whole(LineFault::TooLong, &line[MAX_LINE..]));
    }
    if has_nul(line) {
        return Err(Wrong::at_nul(LineFault::NulByte, line));
    }
    read_entry(skip_blanks(line))
}

/// Reads what a line says, or returns its first fault from left to right.
pub fn read_line(line: &[u8]) -> Result<Entry<'_>, Wrong<LineFault>>
    ensures says { IfOk result (λ entry. Says line.now (entry_seen entry)) }
    ensures fails { IfErr result (LineFails line.now) }
    ensures within { IfErr result (IsWithin line.now) }

    // the same, as a value
    ensures value { Gives entry_seen result (line_of line.now) }
{
    content(line)
}
