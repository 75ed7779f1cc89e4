//! The words of a command that a shell (sh(1)) takes literally.
ghost use Rattle.std.specs.Prelude.{◌≡◌, option_map};
ghost use Rattle.std.specs.List.{list_all};
ghost use Rattle.cs_table.specs.Text.{after, front};
ghost use Rattle.cs_command.specs.Words.{behind_all, behind_one, behind_plain, behind_this, behind_word};
ghost use Rattle.cs_command.specs.Words.{first_word, holds, is_one_of, is_plain_byte, is_sign};
ghost use Rattle.cs_command.specs.Words.{quoted_at, word_at};

use cs_table::text::{is_blank, skip_blanks, word};

/// The list has a blank between its words.
pub(crate) fn is_one_of(list: &[u8], word: &[u8]) -> bool
    ensures { result ≡ is_one_of list.now word.now }
{
    list.split(|byte| *byte == b' ').any(|known| known == word)
}

pub(crate) fn first_word(text: &[u8]) -> &[u8]
    ensures { result.now ≡ first_word text.now }
{
    let (first, _) = word(text);
    first
}

pub(crate) fn behind_word(text: &[u8]) -> &[u8]
    ensures { result.now ≡ behind_word text.now }
{
    let (_, rest) = word(text);
    skip_blanks(rest)
}

#[tactic(auto, unfolding(crate::specs::Words::is_plain_byte))]
fn is_plain_byte(byte: u8) -> bool
    ensures { result ≡ is_plain_byte byte }
{
    byte.is_ascii_alphanumeric() || b"_./:=@%+,-".as_slice().contains(&byte)
}

fn are_plain(word: &[u8]) -> bool
    ensures { result ≡ list_all is_plain_byte word.now }
{
    word.iter().all(|byte| is_plain_byte(*byte))
}

#[tactic(auto, unfolding(crate::specs::Words::behind_plain))]
pub(crate) fn behind_plain(text: &[u8]) -> Option<&[u8]>
    ensures { option_map (λ rest. rest.now) result ≡ behind_plain text.now }
{
    let first = first_word(text);
    if first.is_empty() || !are_plain(first) {
        return None;
    }
    Some(behind_word(text))
}

pub(crate) fn behind_this<'t>(word: &[u8], text: &'t [u8]) -> Option<&'t [u8]>
    ensures { option_map (λ rest. rest.now) result ≡ behind_this word.now text.now }
{
    if first_word(text) == word {
        Some(behind_word(text))
    } else {
        None
    }
}

fn is_sign(byte: u8) -> bool
    ensures { result ≡ is_sign byte }
{
    b";&|()<>".as_slice().contains(&byte)
}

/// Sets of bytes: in a word, up to a sign, in quotes, or in a name.
#[derive(Clone, Copy)]
pub(crate) enum Class {
    Inner,
    Unsigned,
    Quoted,
    Name,
}

impl Class {
    pub(crate) fn holds(self, byte: u8) -> bool
        ensures { result ≡ holds self byte }
    {
        match self {
            Class::Inner => !is_blank(byte) && !is_sign(byte),
            Class::Unsigned => !is_sign(byte),
            Class::Quoted => is_plain_byte(byte) || is_blank(byte),
            Class::Name => byte.is_ascii_alphanumeric() || byte == b'_',
        }
    }
}

/// The bytes of the class at the front, and the rest.
pub(crate) fn split_front(class: Class, text: &[u8]) -> (&[u8], &[u8])
    ensures word { result.0.now ≡ front (holds class) text.now }
    ensures rest { result.1.now ≡ after (holds class) text.now }
{
    let mut len = 0;
    while len < text.len() && class.holds(text[len]) {
        len += 1;
    }
    text.split_at(len)
}

fn quoted_at(quote: u8, text: &[u8]) -> Option<(&[u8], &[u8])>
    ensures { option_map (λ word. (word.0.now, word.1.now)) result ≡ quoted_at quote text.now }
{
    let (word, rest) = split_front(Class::Quoted, text);
    match first_word(rest) {
        [byte] if *byte == quote => Some((word, behind_word(rest))),
        _ => None,
    }
}

/// The word at the front, plain or in quotes, and the rest.
#[tactic(auto, unfolding(crate::specs::Words::word_at))]
pub(crate) fn word_at(text: &[u8]) -> Option<(&[u8], &[u8])>
    ensures { option_map (λ word. (word.0.now, word.1.now)) result ≡ word_at text.now }
{
    match text {
        [] => None,
        [quote @ (b'\'' | b'"'), others @ ..] => quoted_at(*quote, others),
        _ => match behind_plain(text) {
            Some(rest) => Some((first_word(text), rest)),
            None => None,
        },
    }
}

/// What stands behind all such words.
#[tactic(auto, unfolding(crate::specs::Words::passed))]
pub(crate) fn behind_words(text: &[u8]) -> &[u8]
    ensures { result.now ≡ behind_all behind_one text.now }
{
    let mut rest = text;
    for _ in 0..text.len() {
        match word_at(rest) {
            Some((_, behind)) => rest = behind,
            None => return rest,
        }
    }
    rest
}
