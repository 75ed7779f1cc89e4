//! A plain call of flock(1), as util-linux has it: options, the path of a file, and a program.
ghost use Rattle.std.specs.Prelude.{◌≡◌, false, length, option_map};
ghost use Rattle.cs_command.specs.Locks.{asked_in, behind_option, behind_redirection, behind_sign};
ghost use Rattle.cs_command.specs.Locks.{call_in, is_at_once, is_exclusive, is_held, is_program};
ghost use Rattle.cs_command.specs.Locks.{is_shared, with_option};
ghost use Rattle.cs_command.specs.Words.{behind_all};

use crate::fronts::{begins_with, behind_fronts};
use crate::named::{Kind, count_of};
use crate::paths::{common_path, has_one_place, is_below, is_file};
use crate::words::{
    behind_plain, behind_this, behind_word, behind_words, first_word, is_one_of, word_at,
};
use cs_history::Mode;
use cs_table::text::skip_blanks;

// ---- options

fn is_shared(word: &[u8]) -> bool
    ensures { result ≡ is_shared word.now }
{
    is_one_of(b"-s --shared", word)
}

fn is_exclusive(word: &[u8]) -> bool
    ensures { result ≡ is_exclusive word.now }
{
    is_one_of(b"-x -e --exclusive", word)
}

fn is_at_once(word: &[u8]) -> bool
    ensures { result ≡ is_at_once word.now }
{
    is_one_of(
        b"-n -xn -nx -en -ne --nb --nonblock --nonblocking -w0 --wait=0 --timeout=0",
        word,
    )
}

#[tactic(auto, unfolding(crate::specs::Locks::behind_option))]
fn behind_option(text: &[u8]) -> Option<&[u8]>
    ensures { option_map (λ rest. rest.now) result ≡ behind_option text.now }
{
    let word = first_word(text);
    if is_one_of(b"-w --wait --timeout", word) {
        return behind_this(b"0", behind_word(text));
    }
    if is_shared(word) || is_exclusive(word) || is_at_once(word) {
        return Some(behind_word(text));
    }
    None
}

fn with_option(asked: (bool, bool), option: &[u8]) -> (bool, bool)
    ensures { result ≡ with_option asked option.now }
{
    let (shared, at_once) = asked;
    if is_shared(option) {
        return (true, at_once);
    }
    if is_exclusive(option) {
        return (false, at_once);
    }
    (shared, true)
}

#[tactic(auto, unfolding(crate::specs::Words::passed, crate::specs::Locks::asked_in))]
fn options(text: &[u8]) -> ((bool, bool), &[u8])
    ensures asked { result.0 ≡ asked_in (length text.now) (false, false) text.now }
    ensures behind { result.1.now ≡ behind_all behind_option text.now }
{
    let mut asked = (false, false);
    let mut rest = text;
    for _ in 0..text.len() {
        match behind_option(rest) {
            Some(behind) => {
                asked = with_option(asked, first_word(rest));
                rest = behind;
            }
            None => return (asked, rest),
        }
    }
    (asked, rest)
}

// ---- the program

/// After `<`, `>`, `>>`, `2>` or `2>>`; empty without one at the front.
#[tactic(auto, unfolding(crate::specs::Locks::behind_sign), using(crate::proofs::Longer::is_longer))]
fn behind_sign(text: &[u8]) -> &[u8]
    ensures { result.now ≡ behind_sign text.now }
{
    if is_below(b"2>>", text) {
        return &text[3..];
    }
    if is_below(b"2>", text) || is_below(b">>", text) {
        return &text[2..];
    }
    if is_below(b"<", text) || is_below(b">", text) {
        return &text[1..];
    }
    &[]
}

#[tactic(auto, unfolding(crate::specs::Locks::behind_redirection))]
fn behind_redirection(text: &[u8]) -> Option<&[u8]>
    ensures { option_map (λ rest. rest.now) result ≡ behind_redirection text.now }
{
    if first_word(text) == b"2>&1".as_slice() {
        return Some(behind_word(text));
    }
    behind_plain(skip_blanks(behind_sign(text)))
}

#[tactic(auto, unfolding(crate::specs::Words::passed))]
fn behind_redirections(text: &[u8]) -> &[u8]
    ensures { result.now ≡ behind_all behind_redirection text.now }
{
    let mut rest = text;
    for _ in 0..text.len() {
        match behind_redirection(rest) {
            Some(behind) => rest = behind,
            None => return rest,
        }
    }
    rest
}

/// Whether the text is a program with words, and redirections after them.
#[tactic(auto, unfolding(crate::specs::Locks::is_program))]
pub(crate) fn is_program(text: &[u8]) -> bool
    ensures { result ≡ is_program text.now }
{
    !begins_with(b'-', text)
        && word_at(text).is_some()
        && behind_redirections(behind_words(text)).is_empty()
}

// ---- the lock

#[tactic(auto, unfolding(crate::specs::Locks::is_held, crate::specs::Locks::behind_c))]
fn is_held(text: &[u8], path: &[u8], behind: &[u8]) -> bool
    ensures { result ≡ is_held text.now (path.now, behind.now) }
{
    let program = if is_one_of(b"-c --command", first_word(behind)) {
        behind_word(behind)
    } else {
        behind
    };
    is_file(path)
        && is_program(program)
        && count_of(Kind::Leaves, behind) == 0
        && count_of(Kind::Locks, text) == 1
        && has_one_place(common_path(path), text)
}

/// The file and the mode of a plain call, and what follows the path.
#[tactic(auto, unfolding(crate::specs::Locks::call_in))]
pub(crate) fn call_in(text: &[u8]) -> Option<((&[u8], Mode), &[u8])>
    ensures { option_map (λ call. ((call.0.0.now, call.0.1), call.1.now)) result
        ≡ call_in text.now }
{
    let rest = behind_fronts(text);
    if !is_one_of(b"flock /bin/flock /usr/bin/flock", first_word(rest)) {
        return None;
    }
    let (asked, behind) = options(behind_word(rest));
    let (path, behind) = word_at(behind)?;
    if !is_held(text, path, behind) {
        return None;
    }
    match asked {
        (false, false) => Some(((path, Mode::Wait), behind)),
        (false, true) => Some(((path, Mode::Try), behind)),
        (true, false) => Some(((path, Mode::Shared), behind)),
        (true, true) => None,
    }
}
