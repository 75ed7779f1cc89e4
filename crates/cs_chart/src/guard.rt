//! The command after which a row is named, without a guard such as `test -x /usr/bin/backup ||`.
use bstr::ByteSlice;
use cs_command::program_text;

/// Whether the text is `test WORDS` or `[ WORDS ]`, and a shell takes all words literally.
fn is_test(text: &[u8]) -> bool {
    let begins = text.starts_with_str(b"test ".as_slice());
    let is_test = begins || text.starts_with_str(b"[ ") && text.ends_with_str(b" ]");
    is_test && text.find_byteset(b"\"'\\`;&|()<>#%".as_slice()).is_none()
}

/// What follows a test between these words, if they are the whole command and it has none of the
/// signs.
fn between<'c>(command: &'c [u8], words: [&str; 3], signs: &[u8]) -> Option<&'c [u8]> {
    let [start, middle, end] = words;
    let (front, rest) = command.split_once_str(start.as_bytes())?;
    let (test, rest) = rest.split_once_str(middle.as_bytes())?;
    let (guarded, after) = rest.rsplit_once_str(end.as_bytes())?;
    let is_guard = front.is_empty() && is_test(test) && after.is_empty();
    if is_guard && guarded.find_byteset(signs).is_none() {
        Some(guarded.trim())
    } else {
        None
    }
}

/// What runs after a guard, if the text is certainly a guard and a program or a group.
fn after_guard(command: &[u8]) -> Option<&[u8]> {
    let command = command.trim();
    for (words, signs) in [
        (["", " || (", ")"], b";()".as_slice()),
        (["", " || { ", "; }"], b";()".as_slice()),
        (["", " || ", ""], b";&(){}".as_slice()),
        (["if ", "; then ", "; fi"], b";()".as_slice()),
    ] {
        let found = between(command, words, signs);
        if found.is_some() {
            return found;
        }
    }
    None
}

/// The program that does a command's work, with its words; more, if what precedes it isn't read.
pub(crate) fn work_of(command: &[u8]) -> &[u8] {
    let mut rest = program_text(command);
    for _ in 0..command.len() {
        match after_guard(rest) {
            Some(guarded) => rest = program_text(guarded),
            None => return rest,
        }
    }
    rest
}
