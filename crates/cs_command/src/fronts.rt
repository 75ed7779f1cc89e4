//! What may precede a plain call of flock(1) or timeout(1): settings, guards, nice(1) and
//! ionice(1).
ghost use Rattle.std.specs.Prelude.{◌≡◌, option_map};
ghost use Rattle.cs_table.specs.Text.{begins_with};
ghost use Rattle.cs_command.specs.Words.{behind_front, behind_guard, behind_nice_option, is_setting};
ghost use Rattle.cs_command.specs.Words.{behind_all};

use crate::words::{
    Class, behind_plain, behind_this, behind_word, behind_words, first_word, is_one_of, split_front,
};

pub(crate) fn begins_with(byte: u8, text: &[u8]) -> bool
    ensures { result ≡ begins_with byte text.now }
{
    match text {
        [first, ..] => *first == byte,
        [] => false,
    }
}

#[tactic(auto, unfolding(crate::specs::Words::is_setting))]
pub(crate) fn is_setting(word: &[u8]) -> bool
    ensures { result ≡ is_setting word.now }
{
    match word {
        [first, others @ ..] => {
            Class::Name.holds(*first)
                && !first.is_ascii_digit()
                && begins_with(b'=', split_front(Class::Name, others).1)
        }
        [] => false,
    }
}

#[tactic(auto, unfolding(crate::specs::Words::behind_guard))]
fn behind_guard(text: &[u8]) -> Option<&[u8]>
    ensures { option_map (λ rest. rest.now) result ≡ behind_guard text.now }
{
    let first = first_word(text);
    if first == b"[".as_slice() {
        return behind_this(b"&&", behind_this(b"]", behind_words(behind_word(text)))?);
    }
    if is_one_of(b"test cd", first) {
        return behind_this(b"&&", behind_words(behind_word(text)));
    }
    None
}

#[tactic(auto, unfolding(crate::specs::Words::behind_nice_option))]
fn behind_nice_option(text: &[u8]) -> Option<&[u8]>
    ensures { option_map (λ rest. rest.now) result ≡ behind_nice_option text.now }
{
    if !begins_with(b'-', text) {
        return None;
    }
    if is_one_of(b"-n -c --adjustment --class --classdata", first_word(text)) {
        return behind_plain(behind_word(text));
    }
    behind_plain(text)
}

#[tactic(auto, unfolding(crate::specs::Words::passed))]
fn behind_nice_options(text: &[u8]) -> &[u8]
    ensures { result.now ≡ behind_all behind_nice_option text.now }
{
    let mut rest = text;
    for _ in 0..text.len() {
        match behind_nice_option(rest) {
            Some(behind) => rest = behind,
            None => return rest,
        }
    }
    rest
}

#[tactic(auto, unfolding(crate::specs::Words::behind_front))]
fn behind_front(text: &[u8]) -> Option<&[u8]>
    ensures { option_map (λ rest. rest.now) result ≡ behind_front text.now }
{
    let first = first_word(text);
    if is_setting(first) {
        return behind_plain(text);
    }
    let nice = b"nice /bin/nice /usr/bin/nice ionice /bin/ionice /usr/bin/ionice";
    if is_one_of(nice, first) {
        return Some(behind_nice_options(behind_word(text)));
    }
    behind_guard(text)
}

#[tactic(auto, unfolding(crate::specs::Words::passed))]
pub(crate) fn behind_fronts(text: &[u8]) -> &[u8]
    ensures { result.now ≡ behind_all behind_front text.now }
{
    let mut rest = text;
    for _ in 0..text.len() {
        match behind_front(rest) {
            Some(behind) => rest = behind,
            None => return rest,
        }
    }
    rest
}
