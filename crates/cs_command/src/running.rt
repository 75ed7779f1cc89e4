use crate::fronts::begins_with;
use crate::paths::{behind_place, has_one_place};
use crate::words::{Class, behind_word, first_word, is_one_of, split_front};
use cs_place::split_last_word;
use cs_table::text::{digits, skip_blanks};
use memchr::memchr;
use std::str;

/// What a command runs by run-parts(8).
#[derive(Drop)]
pub enum RunParts<'c> {
    /// Nothing.
    Absent,
    /// The programs in a folder.
    Folder {
        /// The absolute path of the folder.
        path: &'c str,
        /// Whether the last one runs first.
        is_reversed: bool,
    },
    /// It may run some; this is why they are unknown.
    Unread(&'static str),
}

const NAME: &[u8] = b"run-parts";

/// After the first word that is run-parts, or a path to it.
fn behind_call(text: &[u8]) -> Option<&[u8]> {
    let mut rest = text;
    for _ in 0..text.len() {
        let (word, behind) = split_front(Class::Inner, rest);
        if word == NAME || word.ends_with(b"/run-parts".as_slice()) {
            return Some(behind);
        }
        let [_, others @ ..] = behind else {
            return None;
        };
        rest = others;
    }
    None
}

/// Whether another program follows: after `;` or `(`, or after `&` or `|` unless `<` or `>` is
/// directly before it, as in `2>&1`.
fn goes_on(text: &[u8]) -> bool {
    let mut may = false;
    let mut turned = false;
    let mut rest = text;
    for _ in 0..text.len() {
        let (word, behind) = split_front(Class::Inner, rest);
        if !word.is_empty() {
            if may && word != b"}".as_slice() {
                return true;
            }
            may = false;
            turned = false;
        }
        let [byte, others @ ..] = behind else {
            return false;
        };
        may = match *byte {
            b';' | b'(' => true,
            b'&' | b'|' => may || !turned,
            _ => may,
        };
        turned = *byte == b'<' || *byte == b'>';
        rest = others;
    }
    false
}

/// Whether a shell takes the word literally.
fn is_plain(word: &[u8]) -> bool {
    let signs = b"\"'\\$`*?[]{}~".as_slice();
    for byte in word {
        if signs.contains(byte) || byte.is_ascii_control() {
            return false;
        }
    }
    true
}

fn programs_of(folder: Option<&[u8]>, is_reversed: bool) -> RunParts<'_> {
    let Some(word) = folder else {
        return RunParts::Unread("run-parts has no folder");
    };
    match str::from_utf8(word) {
        Ok(path) if begins_with(b'/', word) && is_plain(word) => {
            RunParts::Folder { path, is_reversed }
        }
        _ => RunParts::Unread("the folder of run-parts isn't a plain path"),
    }
}

/// What the words of a call run. Options and folders are in any order, and `--` ends the options.
fn run_by(text: &[u8]) -> RunParts<'_> {
    let unknown = RunParts::Unread("run-parts has an option that isn't known here");
    // these don't change which programs run
    let quiet = b"--report -v --verbose --exit-on-error --new-session --stdin";
    let mut folder = None;
    let mut is_reversed = false;
    let mut may_be_option = true;
    let mut rest = skip_blanks(text);
    for _ in 0..text.len() {
        let word = first_word(rest);
        rest = behind_word(rest);
        if word.is_empty() || is_one_of(b"}", word) {
            break;
        }
        if !may_be_option || !begins_with(b'-', word) || is_one_of(b"-", word) {
            if folder.is_some() {
                return RunParts::Unread("run-parts has more than one folder");
            }
            folder = Some(word);
        } else if is_one_of(b"-a -u", word) {
            let value = first_word(rest);
            if value.is_empty() || !is_plain(value) {
                return unknown;
            }
            rest = behind_word(rest);
        } else if is_one_of(b"--reverse", word) {
            is_reversed = true;
        } else if is_one_of(b"--", word) {
            may_be_option = false;
        } else if !is_one_of(quiet, word) {
            let begins = word.starts_with(b"--arg=".as_slice());
            if !(begins || word.starts_with(b"--umask=".as_slice())) || !is_plain(word) {
                return unknown;
            }
        }
    }
    programs_of(folder, is_reversed)
}

/// Returns what a command of a table runs by run-parts(8). Reads one call, which has to be the last
/// program in the shell's text.
pub fn run_parts(command: &[u8]) -> RunParts<'_> {
    let text = match memchr(b'%', command) {
        Some(at) => &command[..at],
        None => command,
    };
    let unread = RunParts::Unread("run-parts stands in it in a way that isn't read");
    let Some(behind) = behind_call(text) else {
        return match behind_place(NAME, command) {
            Some(_) => unread,
            None => RunParts::Absent,
        };
    };
    if behind_call(behind).is_some() {
        return RunParts::Unread("run-parts stands there twice");
    }
    if !has_one_place(NAME, command) {
        return unread;
    }
    let (words, others) = split_front(Class::Unsigned, behind);
    if goes_on(others) {
        return RunParts::Unread("run-parts isn't the last program in it");
    }
    // a number directly before `<` or `>` is no word of the call
    let (before, last) = split_last_word(words);
    let turns = begins_with(b'<', others) || begins_with(b'>', others);
    if turns && digits(last).1.is_empty() {
        return run_by(before);
    }
    run_by(words)
}
