//! The lines and jobs that entries name, and whether entries give their commands.
ghost use Rattle.std.specs.Prelude.{◌≡◌, All, IsTrue, count_by, find, option_map};
ghost use Rattle.cs_decl.specs.Join.{is_left_out, is_named, is_of_job};
ghost use Rattle.cs_draft.specs.Draft.{IsBound, TellsLine, are_like, is_text, tells};

use cs_civil::Bytes;
use cs_crontab::{Line, When};
use cs_decl::{AnacronEntry, CronEntry, Entries, LineName, is_named, is_same_when, is_told_when};

pub(crate) fn is_text(text: &[u8], told: &Option<Bytes>) -> bool
    ensures { result ≡ is_text text.now told.now }
{
    match told {
        Some(told) => told.as_slice() == text,
        None => false,
    }
}

pub(crate) fn tells(timed: bool, line: &Line, name: &LineName) -> bool
    ensures { result ≡ tells timed line.now name.now }
{
    is_text(line.command(), &name.command)
        && (!timed || name.when.is_some() && is_told_when(&name.when, line.when()))
}

pub(crate) fn count_like(timed: bool, lines: &[Line], line: &Line) -> usize
    ensures { result ≡ count_by (are_like timed line.now) lines.now }
{
    let alike = lines.iter().filter(|other| {
        other.command() == line.command() && (!timed || is_same_when(line.when(), other.when()))
    });
    alike.count()
}

pub(crate) fn is_left_out(entries: &Entries, line: &Line) -> bool
    ensures { result ≡ is_left_out entries.now line.now }
{
    let names = entries.left_out.as_slice();
    names.iter().any(|name| is_named(name, line))
}

pub(crate) fn entry_of<'e>(entries: &'e Entries, line: &Line) -> Option<&'e CronEntry>
    ensures { option_map (λ e. e.now) result
        ≡ find (λ e. is_named e.name line.now) entries.now.cron }
{
    let cron = entries.cron.as_slice();
    cron.iter().find(|entry| is_named(&entry.name, line))
}

pub(crate) fn job_entry<'e>(entries: &'e Entries, identifier: &[u8]) -> Option<&'e AnacronEntry>
    ensures { option_map (λ e. e.now) result
        ≡ find (is_of_job identifier.now) entries.now.anacron }
{
    let anacron = entries.anacron.as_slice();
    anacron
        .iter()
        .find(|entry| entry.identifier.as_slice() == identifier)
}

// ---- whether entries are bound to the commands of their lines

fn tells_line(lines: &[Line], name: &LineName, line: &Line) -> bool
    ensures { IsTrue result → TellsLine lines.now name.now line.now }
{
    if !is_named(name, line) {
        return true;
    }
    if str::from_utf8(line.command()).is_ok() && !is_text(line.command(), &name.command) {
        return false;
    }
    name.when.is_some() || count_like(false, lines, line) <= 1
}

fn is_bound(lines: &[Line], name: &LineName) -> bool
    ensures { IsTrue result → IsBound lines.now name.now }
{
    for line in lines {
        if !tells_line(lines, name, line) {
            return false;
        }
    }
    true
}

pub(crate) fn are_bound(lines: &[Line], names: &[LineName]) -> bool
    ensures { IsTrue result → All (IsBound lines.now) names.now }
{
    for name in names {
        if !is_bound(lines, name) {
            return false;
        }
    }
    true
}

pub(crate) fn entries_are_bound(lines: &[Line], entries: &[CronEntry]) -> bool
    ensures { IsTrue result → All (λ e. IsBound lines.now e.name) entries.now }
{
    for entry in entries {
        if !is_bound(lines, &entry.name) {
            return false;
        }
    }
    true
}
