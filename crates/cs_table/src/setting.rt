//! Reads settings of crontabs and anacrontabs.
ghost use Rattle.std.specs.Prelude.{◌≡◌, ℕ, List, IfSome, IsNone};
ghost use Rattle.std.specs.Option.{option_map};
ghost use Rattle.cs_table.specs.Text.{front, after};
ghost use Rattle.cs_table.specs.Setting.{begins_setting, is_quote, is_name_byte, IsSetting};
ghost use Rattle.cs_table.specs.SettingReading.{quoted_at, name_at, value_of, setting_of};

use crate::text::{are_blank, is_blank, skip_blanks, trim_end};
use memchr::memchr;

fn is_quote(byte: u8) -> bool
    ensures { result ≡ is_quote byte }
{
    byte == b'"' || byte == b'\''
}

fn is_name_byte(byte: u8) -> bool
    ensures { result ≡ is_name_byte byte }
{
    !is_blank(byte) && byte != b'='
}

/// Checks whether a line whose first byte after blanks is this one is a setting: a letter, `_` or a
/// quote (this profile).
pub fn begins_setting(byte: u8) -> bool
    ensures { result ≡ begins_setting byte }
{
    b'A' <= byte && byte <= b'Z'
        || b'a' <= byte && byte <= b'z'
        || byte == b'_'
        || byte == b'"'
        || byte == b'\''
}

fn quoted(quote: u8, text: &[u8]) -> Option<(&[u8], &[u8])>
    ensures { option_map (λ x. (x.0.now, x.1.now)) result ≡ quoted_at quote text.now }
{
    let at = memchr(quote, text)?;
    Some((&text[..at], &text[at + 1..]))
}

fn plain_name(text: &[u8]) -> (&[u8], &[u8])
    ensures name { result.0.now ≡ front is_name_byte text.now }
    ensures rest { result.1.now ≡ after is_name_byte text.now }
{
    let mut len = 0;
    while len < text.len() && is_name_byte(text[len]) {
        len += 1;
    }
    text.split_at(len)
}

#[tactic(auto, unfolding(crate::specs::SettingReading::name_at))]
fn name(text: &[u8]) -> Option<(&[u8], &[u8])>
    ensures { option_map (λ x. (x.0.now, x.1.now)) result ≡ name_at text.now }
{
    let [first, rest @ ..] = text else {
        return None;
    };
    let (name, behind) = if is_quote(*first) {
        quoted(*first, rest)?
    } else {
        plain_name(text)
    };
    if name.is_empty() {
        return None;
    }
    Some((name, behind))
}

#[tactic(auto, unfolding(crate::specs::SettingReading::value_of))]
fn value(text: &[u8]) -> Option<&[u8]>
    ensures { option_map (λ x. x.now) result ≡ value_of text.now }
{
    let [first, rest @ ..] = text else {
        return Some(text);
    };
    if !is_quote(*first) {
        return Some(trim_end(text));
    }
    let (value, behind) = quoted(*first, rest)?;
    if are_blank(behind) { Some(value) } else { None }
}

#[tactic(auto, unfolding(crate::specs::SettingReading::setting_of))]
fn setting(text: &[u8]) -> Option<(&[u8], &[u8])>
    ensures { option_map (λ x. (x.0.now, x.1.now)) result ≡ setting_of text.now }
{
    let (name, rest) = name(text)?;
    let [b'=', behind @ ..] = skip_blanks(rest) else {
        return None;
    };
    Some((name, value(skip_blanks(behind))?))
}

/// Reads a setting, `name = value`; `None` if the text isn't one (crontab(5)).
///
/// Either may be in quotes; blanks around `=` and after the value don't count. The text has no
/// leading blanks.
pub fn read_setting(text: &[u8]) -> Option<(&[u8], &[u8])>
    ensures written { IfSome result (λ x. IsSetting text.now x.0.now x.1.now) }
    ensures none { IsNone result → (name value : List ℕ) → IsSetting text.now name value → ⊥ }

    // the same, as a value
    ensures value { option_map (λ x. (x.0.now, x.1.now)) result ≡ setting_of text.now }
{
    setting(text)
}
