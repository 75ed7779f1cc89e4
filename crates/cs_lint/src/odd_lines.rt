//! What is odd in a line of a crontab by itself: valid, but probably a mistake.
use cs_diagnostics::{Span, is_word_line, word_after, words};
use cs_table::text::{digits, is_among, is_blank, trim_end};

/// Debian's cron takes commands of at most so many bytes.
const MAX_COMMAND: usize = 998;

/// Whether the line is odd in this way, the place, the name in `cronsafe explain`, and why it is
/// odd with what to change.
pub(crate) type Oddity = (bool, Span, &'static str, &'static str);

/// Why a step of minutes is odd: within the hour, and past it.
const HOUR_STEP: [&str; 2] = [
    "the step begins anew each hour, after a shorter gap: take a divisor of 60",
    "this step is past the hour, so the line is due at minute 0 alone: write `0`",
];

const DAY_STEP: [&str; 2] = [
    "the step begins anew each day, after a shorter gap: take a divisor of 24",
    "this step is past the day, so the line is due in hour 0 alone: write `0`",
];

/// A step past the month leaves day 1 alone, which is the same advice.
const MONTH_STEP: [&str; 2] =
    ["the step begins anew each month, after another gap: list the days"; 2];

/// Weekdays in tables of six fields.
const DAYS: [&[u8]; 7] = [b"SUN", b"MON", b"TUE", b"WED", b"THU", b"FRI", b"SAT"];

/// Whether the command begins with what reads as a sixth field: `?`, a weekday in capitals, or
/// numbers that begin with a digit or `*`.
fn has_sixth(line: &[u8]) -> bool {
    let word = word_after(line, 5).bytes(line);
    let first = word.first().copied().unwrap_or(b'-');
    let behind = word.get(3).copied().unwrap_or(b',');
    if is_word_line(line) || b"/,-".contains(&first) {
        return false;
    }
    if is_among(DAYS.as_slice(), Span::of(0, 3).bytes(word)) {
        return b"-,#".contains(&behind);
    }
    for byte in word {
        if !b"0123456789*/,-".contains(byte) {
            return first == b'?' && word.len() == 1;
        }
    }
    true
}

/// A field, counted from 0; empty where a word such as `@daily` replaces the fields, or a sixth one
/// follows.
fn field(line: &[u8], number: usize) -> &[u8] {
    if is_word_line(line) || has_sixth(line) {
        return &[];
    }
    word_after(line, number).bytes(line)
}

/// Whether the field is `*/N`, and `round` isn't a multiple of N. The texts are for N up to `round`
/// and above.
fn uneven(line: &[u8], number: usize, round: u32, texts: [&'static str; 2]) -> Oddity {
    let [less, more] = texts;
    let field = field(line, number);
    let (step, rest) = digits(Span::between(2, field.len()).bytes(field));
    let is_step = field.starts_with(b"*/".as_slice()) && rest.is_empty();
    let last_gap = round.checked_rem(step).unwrap_or(0);
    (
        is_step && last_gap != 0,
        words(line, number, number),
        "UnevenStep",
        if step > round { more } else { less },
    )
}

/// The index of the first `%` without a backslash, or the length; and that of the last `#` before
/// it that follows a blank, with no quote, backquote or backslash after it.
fn ends_in(command: &[u8]) -> (usize, Option<usize>) {
    let (mut comment, mut last) = (None, 0u8);
    for (at, byte) in command.iter().enumerate() {
        match *byte {
            b'%' if last != b'\\' => return (at, comment),
            b'#' if is_blank(last) => comment = Some(at),
            b'"' | b'\'' | b'`' | b'\\' => comment = None,
            _ => {}
        }
        last = *byte;
    }
    (command.len(), comment)
}

/// Whether a `$` stands in front of a name or a `{`, and whether a `#` stands after a blank.
fn marks_in(value: &[u8]) -> (bool, bool) {
    let (mut has_variable, mut has_comment, mut last) = (false, false, 0u8);
    for byte in value {
        match *byte {
            b'A'..=b'Z' | b'a'..=b'{' | b'_' if last == b'$' => has_variable = true,
            b'#' if is_blank(last) => has_comment = true,
            _ => {}
        }
        last = *byte;
    }
    (has_variable, has_comment)
}

/// What may be odd in a line that is a setting.
pub(crate) fn odd_setting(line: &[u8], name: &[u8], value: &[u8]) -> [Oddity; 3] {
    let place = Span::between(word_after(line, 0).from, line.len());
    let (has_variable, has_comment) = marks_in(value);
    let has_comment = has_comment && trim_end(line).ends_with(value);
    [
        (
            has_variable,
            place,
            "Unexpanded",
            "no variable is expanded in a setting: write out its value",
        ),
        (
            name == b"TZ".as_slice(),
            place,
            "TimeZone",
            "commands get this zone, but aren't due by it: set it in each command",
        ),
        (
            has_comment,
            place,
            "ValueComment",
            "the comment is part of the value: put it on a line of its own",
        ),
    ]
}

/// What may be odd in the fields of a line.
pub(crate) fn odd_fields(line: &[u8]) -> [Oddity; 6] {
    let (minute, hour, day) = (field(line, 0), field(line, 1), field(line, 2));
    let has_star = day.starts_with(b"*".as_slice()) || field(line, 4).starts_with(b"*".as_slice());
    [
        (
            minute == b"*".as_slice() && digits(hour).1.is_empty(),
            words(line, 0, 1),
            "EachMinute",
            "due at each minute of this hour: write 0 for one run, or 0-59",
        ),
        uneven(line, 0, 60, HOUR_STEP),
        uneven(line, 1, 24, DAY_STEP),
        uneven(line, 2, 1, MONTH_STEP),
        (
            !day.is_empty() && !has_star,
            words(line, 2, 4),
            "BothDays",
            "either day is enough: to ask for both, test one in the command",
        ),
        (
            has_sixth(line),
            words(line, 5, 5),
            "SixthField",
            "cron has five fields, and this begins the command: drop the seconds in front, if the \
             line is one of Quartz, Spring or robfig/cron, else drop this",
        ),
    ]
}

/// What may be odd in the command of a line.
pub(crate) fn odd_command(line: &[u8], command: &[u8]) -> [Oddity; 4] {
    let (len, start) = (line.len(), line.len().saturating_sub(command.len()));
    let (percent, comment) = ends_in(command);
    let text = Span::of(0, percent).bytes(command);
    let front = trim_end(text);
    let is_background = front.ends_with(b"&".as_slice())
        && !front.ends_with(b"&&".as_slice())
        && !front.ends_with(b"\\&".as_slice())
        && !front.contains(&b'#');
    [
        (
            percent < command.len(),
            Span::of(start.saturating_add(percent), 1),
            "PercentSign",
            r"the command ends here, and what follows is its input: write \%",
        ),
        (
            command.len() > MAX_COMMAND,
            Span::between(start.saturating_add(MAX_COMMAND), len),
            "LongCommand",
            "Debian's cron takes 998 bytes: put the command into a script",
        ),
        (
            is_background,
            Span::of(start.saturating_add(front.len()).saturating_sub(1), 1),
            "Background",
            "the run ends while this goes on, past its longest time: remove the `&`",
        ),
        (
            comment.is_some(),
            Span::between(comment.unwrap_or(0), percent).behind(start),
            "CommandComment",
            "the comment is part of the command: put it on a line of its own",
        ),
    ]
}

/// What may be odd at the end of a line.
pub(crate) fn odd_end(line: &[u8]) -> [Oddity; 2] {
    let last = Span::of(line.len().saturating_sub(1), 1);
    [
        (
            line.ends_with(b"\\".as_slice()),
            last,
            "Backslash",
            "the next line isn't joined to this one: write it all on one line",
        ),
        (
            line.ends_with(b"\r".as_slice()),
            last,
            "CarriageReturn",
            "a carriage return ends this line: end lines with a newline alone",
        ),
    ]
}
