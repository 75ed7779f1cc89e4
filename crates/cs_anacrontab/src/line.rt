ghost use Rattle.std.specs.Prelude.{◌≡◌, ◌<◌, ◌≤◌, ◌==◌, length, IfSome, IfOk, IfErr};
ghost use Rattle.std.specs.List.{list_any};
ghost use Rattle.std.specs.Str.{is_utf8};
ghost use Rattle.cs_anacrontab.specs.Reading.{number_of, or_fault, days_of, period_of, is_folder, is_identifier, behind_word, word_at, completed, job_of, is_continued, entry_of, line_of};
ghost use Rattle.cs_table.specs.Wrong.{Gives, IsWithin, marked};
ghost use Rattle.cs_anacrontab.specs.Grammar.{Says};
ghost use Rattle.cs_anacrontab.specs.Faults.{LineFails};
ghost use Rattle.cs_anacrontab.specs.Table.{from_identifier};
ghost use Rattle.cs_anacrontab.specs.Seen.{entry_seen};
ghost use Rattle.cs_anacrontab.specs.declared.limits.TheConstants.{MAX_PERIOD, MAX_DELAY};
ghost use Rattle.cs_anacrontab.specs.declared.fault.JobFault.TheVariants.{BadDelay};

use crate::fault::JobFault;
use crate::limits::{MAX_DELAY, MAX_IDENTIFIER, MAX_PERIOD};
use crate::period::{DayCount, Period, word_period};
use cs_table::setting::{begins_setting, read_setting};
use cs_table::text::{digits, has_nul, skip_blanks, word};
use cs_table::{MAX_LINE, Wrong, marked};

/// What a line says.
#[derive(Drop)]
pub enum Entry<'a> {
    /// It is empty, blank or a comment.
    Nothing,
    /// A name and its value.
    Setting(&'a [u8], &'a [u8]),
    /// A period, a delay in minutes, an identifier and a command.
    Job(Period, u32, &'a [u8], &'a [u8]),
}

#[tactic(auto, unfolding(crate::specs::Reading::number_of))]
fn number(highest: u32, word: &[u8]) -> Option<u32>
    requires { highest < 1_000_000 }
    ensures value { result ≡ number_of highest word.now }
    ensures high { IfSome result (λ n. n ≤ highest) }
{
    let (value, rest) = digits(word);
    if word.is_empty() || !rest.is_empty() {
        return None;
    }
    if highest < value {
        return None;
    }
    Some(value)
}

fn days(word: &[u8]) -> Option<Period>
    ensures { result ≡ days_of (number_of MAX_PERIOD word.now) }
{
    let count = DayCount::new(number(MAX_PERIOD, word)?)?;
    Some(Period::Days(count))
}

/// Reads a period: a number of days, or `@` and a name. [`UnknownWord`](JobFault::UnknownWord) for
/// another name, [`BadPeriod`](JobFault::BadPeriod) for no such number.
#[tactic(auto, unfolding(crate::specs::Reading::period_of))]
pub fn read_period(word: &[u8]) -> Result<Period, JobFault>
    ensures { result ≡ period_of word.now }
{
    match word {
        [] => Err(JobFault::BadPeriod),
        [b'@', name @ ..] => word_period(name).ok_or(JobFault::UnknownWord),
        [_, ..] => days(word).ok_or(JobFault::BadPeriod),
    }
}

/// Reads a delay, in minutes. [`BadDelay`](JobFault::BadDelay) if the word is none.
pub fn read_delay(word: &[u8]) -> Result<u32, JobFault>
    ensures { result ≡ or_fault BadDelay (number_of MAX_DELAY word.now) }
{
    number(MAX_DELAY, word).ok_or(JobFault::BadDelay)
}

fn is_utf8(bytes: &[u8]) -> bool
    ensures { result ≡ is_utf8 bytes.now }
{
    str::from_utf8(bytes).is_ok()
}

fn is_folder(word: &[u8]) -> bool
    ensures { result ≡ is_folder word.now }
{
    word == b".".as_slice() || word == b"..".as_slice()
}

fn has_slash(word: &[u8]) -> bool
    ensures { result ≡ list_any (λ b. b == 47) word.now }
{
    word.iter().any(|byte| *byte == b'/')
}

/// Whether a word may name a stamp file.
#[tactic(auto, unfolding(crate::specs::Reading::is_identifier))]
pub fn is_identifier(word: &[u8]) -> bool
    ensures { result ≡ is_identifier word.now }
{
    if word.len() > MAX_IDENTIFIER || has_slash(word) {
        return false;
    }
    !is_folder(word) && is_utf8(word)
}

fn behind_word(text: &[u8]) -> &[u8]
    ensures { result.now ≡ behind_word text.now }
{
    let (_, rest) = word(text);
    skip_blanks(rest)
}

/// The text of a line from its third word on.
pub(crate) fn from_identifier(line: &[u8]) -> &[u8]
    ensures { result.now ≡ from_identifier line.now }
{
    behind_word(behind_word(skip_blanks(line)))
}

/// The next word, and the text from the word after it on.
#[tactic(auto, unfolding(crate::specs::Reading::word_at))]
fn next_word(text: &[u8]) -> Result<(&[u8], &[u8]), Wrong<JobFault>>
    ensures { Gives (λ x. (x.0.now, x.1.now)) result (word_at text.now) }
{
    if text.is_empty() {
        return Err(Wrong::at_end(JobFault::MissingField));
    }
    let (word, rest) = word(text);
    Ok((word, skip_blanks(rest)))
}

fn placed_period(text: &[u8], word: &[u8]) -> Result<Period, Wrong<JobFault>>
    ensures { result ≡ marked (length text.now) (length word.now) (period_of word.now) }
{
    marked(text.len(), word.len(), read_period(word))
}

fn placed_delay(text: &[u8], word: &[u8]) -> Result<u32, Wrong<JobFault>>
    ensures { result ≡ marked (length text.now) (length word.now)
        (or_fault BadDelay (number_of MAX_DELAY word.now)) }
{
    marked(text.len(), word.len(), read_delay(word))
}

/// The identifier begins the text.
fn completed<'a>(
    period: Period,
    delay: u32,
    text: &[u8],
    identifier: &'a [u8],
    command: &'a [u8],
) -> Result<Entry<'a>, Wrong<JobFault>>
    ensures { Gives entry_seen result
        (completed period delay text.now identifier.now command.now) }
{
    if !is_identifier(identifier) {
        return Err(Wrong::at_front(JobFault::BadIdentifier, text, identifier));
    }
    if command.is_empty() {
        return Err(Wrong::at_end(JobFault::MissingField));
    }
    Ok(Entry::Job(period, delay, identifier, command))
}

#[tactic(auto, unfolding(crate::specs::Reading::job_of))]
fn read_job(text: &[u8]) -> Result<Entry<'_>, Wrong<JobFault>>
    ensures { Gives entry_seen result (job_of text.now) }
{
    let (word, rest) = next_word(text)?;
    let period = placed_period(text, word)?;
    let (word, last) = next_word(rest)?;
    let delay = placed_delay(rest, word)?;
    let (identifier, command) = next_word(last)?;
    completed(period, delay, last, identifier, command)
}

fn is_continued(text: &[u8]) -> bool
    ensures { result ≡ is_continued text.now }
{
    text.ends_with(b"\\")
}

#[tactic(auto, unfolding(crate::specs::Reading::entry_of))]
fn read_entry(text: &[u8]) -> Result<Entry<'_>, Wrong<JobFault>>
    ensures { Gives entry_seen result (entry_of text.now) }
{
    match text {
        [] | [b'#', ..] => Ok(Entry::Nothing),
        [_, ..] if is_continued(text) => Err(Wrong::last_byte(JobFault::Continued)),
        [first, ..] if begins_setting(*first) => match read_setting(text) {
            Some((name, value)) => Ok(Entry::Setting(name, value)),
            None => Err(Wrong::whole(JobFault::BadSetting, text)),
        },
        [_, ..] => read_job(text),
    }
}

#[tactic(auto, unfolding(crate::specs::Reading::line_of))]
fn content(line: &[u8]) -> Result<Entry<'_>, Wrong<JobFault>>
    ensures { Gives entry_seen result (line_of line.now) }
{
    if line.len() > MAX_LINE {
        return Err(Wrong::whole(JobFault::TooLong, &line[MAX_LINE..]));
    }
    if has_nul(line) {
        return Err(Wrong::at_nul(JobFault::NulByte, line));
    }
    read_entry(skip_blanks(line))
}

/// Reads what a line says, or returns its first fault from left to right.
pub fn read_line(line: &[u8]) -> Result<Entry<'_>, Wrong<JobFault>>
    ensures says { IfOk result (λ entry. Says line.now (entry_seen entry)) }
    ensures fails { IfErr result (LineFails line.now) }
    ensures within { IfErr result (IsWithin line.now) }

    // the same, as a value
    ensures value { Gives entry_seen result (line_of line.now) }
{
    content(line)
}
