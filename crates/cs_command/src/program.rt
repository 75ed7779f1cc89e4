//! The program after which a command is named, which is read more loosely than a lock is.
use crate::fronts::{begins_with, is_setting};
use crate::words::{behind_word, first_word, is_one_of};
use cs_table::text::digits;

/// Whether there is a word, and a shell takes it literally.
fn is_unsigned(word: &[u8]) -> bool {
    let signs = b"\"'\\`;&|()<>#%".as_slice();
    for byte in word {
        if signs.contains(byte) {
            return false;
        }
    }
    !word.is_empty()
}

/// After options and numbers, such as those of nice(1), ionice(1) and flock(1).
fn behind_options(text: &[u8]) -> &[u8] {
    let mut rest = text;
    for _ in 0..text.len() {
        let first = first_word(rest);
        let behind = behind_word(rest);
        if is_one_of(b"-c --class", first) {
            rest = behind_word(behind);
        } else if begins_with(b'-', first) || digits(first).1.is_empty() {
            rest = behind;
        } else {
            return rest;
        }
    }
    rest
}

/// After plain words and `&&`.
fn behind_guard(text: &[u8]) -> Option<&[u8]> {
    let mut rest = text;
    for _ in 0..text.len() {
        let first = first_word(rest);
        if first == b"&&".as_slice() {
            return Some(behind_word(rest));
        }
        if !is_unsigned(first) {
            return None;
        }
        rest = behind_word(rest);
    }
    None
}

/// After words that only prepare a run: a setting, `nice` or `ionice`, `flock` and its file, and
/// `cd`, `test` or `[` up to `&&`.
fn behind_front(text: &[u8]) -> Option<&[u8]> {
    let first = first_word(text);
    let rest = behind_word(text);
    if !is_unsigned(first) {
        None
    } else if is_setting(first) {
        Some(rest)
    } else if is_one_of(b"cd test [", first) {
        behind_guard(rest)
    } else if is_one_of(b"nice /usr/bin/nice ionice /usr/bin/ionice", first) {
        Some(behind_options(rest))
    } else if is_one_of(b"flock /usr/bin/flock", first) {
        let file = behind_options(rest);
        if is_unsigned(first_word(file)) {
            Some(behind_word(file))
        } else {
            None
        }
    } else {
        None
    }
}

/// The program that a command runs, with its words, after what only prepares the run; the whole
/// command if no plain word is there.
pub fn program_text(command: &[u8]) -> &[u8] {
    let mut rest = command;
    for _ in 0..command.len() {
        match behind_front(rest) {
            Some(behind) => rest = behind,
            None => break,
        }
    }
    let first = first_word(rest);
    if is_unsigned(first) && !begins_with(b'-', first) {
        rest
    } else {
        command
    }
}
