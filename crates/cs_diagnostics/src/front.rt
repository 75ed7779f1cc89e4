//! The parts of a line before its command, and their faults.
use crate::findings::Words;
use crate::line::is_hashed;
use crate::names::{meant, shown};
use crate::span::Span;
use cs_anacrontab::{JobFault, MAX_IDENTIFIER, is_identifier, read_delay, read_period};
use cs_crontab::{LineFault, read_item, read_line};
use cs_schedule::Part;
use cs_table::text::is_among;
use std::alloc::{AllocError, Global};

/// The words after `@` (`crontab(5)`).
const WORDS: &str = "@reboot @yearly @annually @monthly @weekly @daily @midnight @hourly";

const EVERY: &str =
    "robfig/cron has @every: write five fields, such as `*/5 * * * *` for `@every 5m`";

/// The advice where an item of a day stands in the month.
const FIVE: &str = "five fields, without the seconds in front";

/// The words for a period (`anacrontab(5)`).
const PERIODS: &str = "@daily @weekly @monthly";

/// The kind of a table.
#[derive(Clone, Copy)]
pub enum TableKind {
    /// A user's table of cron.
    Crontab,
    /// A table of anacron.
    Anacrontab,
}

/// A part of a line before its command.
#[derive(Clone, Copy)]
pub(crate) enum Front {
    /// A word in place of fields.
    Word,
    /// A field, with words about the names of its numbers.
    Field(Part, &'static str),
    Period,
    Delay,
    Identifier,
}

/// A part and its name.
pub(crate) type Named = (Front, &'static str);

static WORD: [Named; 1] = [(Front::Word, "word")];

static FIELDS: [Named; 5] = [
    (Front::Field(Part::Minute, ""), "minute"),
    (Front::Field(Part::Hour, ""), "hour"),
    (Front::Field(Part::Dom, ""), "day of the month"),
    (Front::Field(Part::Month, ", or jan to dec"), "month"),
    (Front::Field(Part::Dow, ", or sun to sat"), "weekday"),
];

static JOB: [Named; 3] = [
    (Front::Period, "period"),
    (Front::Delay, "delay"),
    (Front::Identifier, "identifier"),
];

/// The reader's name of a fault, and the reason.
type Wrong = (&'static str, String);

impl Front {
    /// The parts of a line; `is_word` says whether it begins with `@`.
    pub(crate) fn all(kind: TableKind, is_word: bool) -> &'static [Named] {
        match kind {
            TableKind::Crontab if is_word => WORD.as_slice(),
            TableKind::Crontab => FIELDS.as_slice(),
            TableKind::Anacrontab => JOB.as_slice(),
        }
    }

    /// The fault of the part, or of an item of it; `is_first` says whether the items before it have
    /// none.
    pub(crate) fn wrong(
        self,
        alloc: Global,
        name: &str,
        text: &[u8],
        is_first: bool,
    ) -> Result<Option<Wrong>, AllocError> {
        let fault = match self {
            Front::Word => match read_line(text) {
                Err(wrong) if wrong.fault == LineFault::UnknownWord => {
                    let why = if is_among(&[b"@every".as_slice()], text) {
                        String::from_str(alloc, EVERY)?
                    } else {
                        unknown_words(alloc, text, WORDS)?
                    };
                    return Ok(Some((wrong.fault.text(), why)));
                }
                _ => None,
            },
            Front::Field(part, names) => match read_item(part, text) {
                Err(fault) => {
                    let why = item_words(alloc, part, (name, names), text, fault, is_first)?;
                    return Ok(Some((fault.text(), why)));
                }
                Ok(_) => None,
            },
            Front::Period => read_period(text).err(),
            Front::Delay => read_delay(text).err(),
            Front::Identifier => (!is_identifier(text)).then_some(JobFault::BadIdentifier),
        };
        match fault {
            Some(fault) => Ok(Some((fault.text(), job_words(alloc, fault, text)?))),
            None => Ok(None),
        }
    }
}

fn item_words(
    alloc: Global,
    part: Part,
    (name, names): (&str, &str),
    item: &[u8],
    fault: LineFault,
    is_first: bool,
) -> Words {
    let (first, last) = (part.first(), part.last());
    match fault {
        LineFault::OutOfField => format!(in alloc; "the {name} is from {first} to {last}{names}"),
        LineFault::Reversed => reversed_words(alloc, part, item),
        LineFault::BadStep => String::from_str(alloc, "the step after `/` is a number from 1 on"),
        LineFault::StepOnNumber => lone_step_words(alloc, part, item),
        _ if item.is_empty() => {
            format!(in alloc; "add an item of the {name} here, or remove the comma")
        }
        _ => {
            let text = shown(alloc, item)?;
            let read = other_words(alloc, part, if is_first { item } else { &[] })?;
            let (source, advice) = form_of(part, item);
            let range = format!(in alloc; "{first} to {last}{names}")?;
            let advice = if advice.is_empty() {
                range.as_str()
            } else {
                advice
            };
            format!(in alloc; "`{text}` is no {name}{source}{read}: write {advice}")
        }
    }
}

/// Which other program has such an item, and what to write; an empty text stands for the range of
/// the field.
fn form_of(part: Part, item: &[u8]) -> (&'static str, &'static str) {
    let first = item.first().copied().unwrap_or(0);
    let behind = item.get(1).copied().unwrap_or(b'-');
    let last = item.last().copied().unwrap_or(0);
    let is_lone = item.len() == 1;
    if is_hashed(item) {
        let advice = if behind == b'/' {
            "`*` in place of `H`"
        } else {
            ""
        };
        return (" (Jenkins has it)", advice);
    }
    if item.contains(&b'~') {
        return (" (cronie has it)", "");
    }
    if first == b'?' && is_lone {
        let advice = if part == Part::Month { FIVE } else { "`*`" };
        return (" (Quartz and Spring have it)", advice);
    }
    let is_last = first == b'L' && b"-W".contains(&behind);
    let is_quartz = first.is_ascii_digit() && b"LW".contains(&last);
    match part {
        Part::Dow if is_last || is_quartz || (first != b'#' && item.contains(&b'#')) => {
            let advice = "sun to sat, and test the day of the month in the command";
            (" (Quartz has it, whose 1 is Sunday)", advice)
        }
        Part::Dom if is_last && is_lone => {
            let advice = "28-31, and test in the command whether it's the last day";
            (" (Quartz has it)", advice)
        }
        Part::Dom if is_last || is_quartz => (" (Quartz has it)", ""),
        Part::Month if is_last || is_quartz => (" (Quartz has it)", FIVE),
        _ => ("", ""),
    }
}

/// What Debian's cron reads such an item as: it skips the rest of a field after the first byte that
/// can't be in an item.
fn other_words(alloc: Global, part: Part, item: &[u8]) -> Words {
    for (at, byte) in item.iter().enumerate() {
        if !byte.is_ascii_alphanumeric() && !b"*-/".contains(byte) {
            let front = Span::of(0, at).bytes(item);
            if read_item(part, front).is_err() {
                return Ok(String::new(alloc));
            }
            let text = shown(alloc, front)?;
            return format!(in alloc; ", though Debian's cron reads `{text}`");
        }
    }
    Ok(String::new(alloc))
}

fn unknown_words(alloc: Global, word: &[u8], known: &str) -> Words {
    let name = shown(alloc, word)?;
    let hint = meant(alloc, name.as_str(), "", known, "the words are")?;
    format!(in alloc; "{name} is unknown: {hint}")
}

fn reversed_words(alloc: Global, part: Part, item: &[u8]) -> Words {
    let why = "a range goes up, and Debian's cron takes this as none";
    let mut ends = item.split(|byte| matches!(byte, b'-' | b'/'));
    let (Some(from), Some(to), None) = (ends.next(), ends.next(), ends.next()) else {
        return format!(in alloc; "{why}: put the smaller number first");
    };
    let is_sunday = part == Part::Dow && from == b"7".as_slice();
    let (from, to) = (shown(alloc, from)?, shown(alloc, to)?);
    let (first, last) = (part.first(), part.last());
    let front = if is_sunday {
        String::new(alloc)
    } else {
        format!(in alloc; "{from}-{last},")?
    };
    format!(in alloc; "{why}: did you mean {front}{first}-{to}?")
}

fn lone_step_words(alloc: Global, part: Part, item: &[u8]) -> Words {
    let mut sides = item.split(|byte| *byte == b'/');
    let number = shown(alloc, sides.next().unwrap_or(item))?;
    let step = shown(alloc, sides.next().unwrap_or(item))?;
    let last = part.last();
    format!(in alloc; "a step follows `*` or a range: did you mean {number}-{last}/{step}?")
}

fn job_words(alloc: Global, fault: JobFault, word: &[u8]) -> Words {
    let why = match fault {
        JobFault::UnknownWord => return unknown_words(alloc, word, PERIODS),
        JobFault::BadPeriod => "the period is 1 to 100,000 days, @daily, @weekly or @monthly",
        JobFault::BadDelay => "the delay is 0 to 100,000 minutes",
        _ if word.len() > MAX_IDENTIFIER => "an identifier has at most 200 bytes: shorten it",
        _ if word.contains(&b'/') => "an identifier is a file name: remove the `/`",
        _ if str::from_utf8(word).is_err() => "an identifier is UTF-8: save the file as UTF-8",
        _ => "`.` and `..` name no stamp file: choose another identifier",
    };
    String::from_str(alloc, why)
}
