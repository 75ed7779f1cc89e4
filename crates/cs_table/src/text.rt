//! Splits crontabs and anacrontabs into lines, words and numbers.
ghost use Rattle.std.specs.Prelude.{◌≡◌, ◌==◌, ◌≢◌, [], ◌∷◌, ◌<◌, ◌+◌, length, min};
ghost use Rattle.std.specs.List.{list_all, list_any};
ghost use Rattle.cs_table.specs.Text.{is_blank, is_solid, is_digit, is_one_of, front, after, lines_of, decimal};
ghost use Rattle.cs_table.specs.SettingReading.{is_other, trimmed};

use memchr::memchr;

/// Whether the byte is a space or a tab.
pub fn is_blank(byte: u8) -> bool
    ensures { result ≡ is_blank byte }
{
    byte == b' ' || byte == b'\t'
}

fn is_digit(byte: u8) -> bool
    ensures { result ≡ is_digit byte }
{
    b'0' <= byte && byte <= b'9'
}

/// Whether the line holds a zero byte.
pub fn has_nul(line: &[u8]) -> bool
    ensures { result ≡ list_any (λ b. b == 0) line.now }
{
    line.iter().any(|byte| *byte == 0)
}

/// Returns how many bytes the line has from its first zero byte on; 0 if it has none.
pub fn nul_left(line: &[u8]) -> usize
    ensures { result ≡ length (after (is_other 0) line.now) }
{
    match memchr(0, line) {
        Some(at) => line.len() - at,
        None => 0,
    }
}

/// Returns the text without the blanks at its front.
#[tactic(auto, unfolding(crate::specs::Text::after))]
pub fn skip_blanks(text: &[u8]) -> &[u8]
    ensures { result.now ≡ after is_blank text.now }
{
    let mut rest = text;
    while let [first, others @ ..] = rest {
        if !is_blank(*first) {
            return rest;
        }
        rest = others;
    }
    rest
}

/// Whether all bytes are blanks.
pub fn are_blank(text: &[u8]) -> bool
    ensures { result ≡ list_all is_blank text.now }
{
    text.iter().all(|byte| is_blank(*byte))
}

/// Returns the text without the blanks at its end.
pub fn trim_end(text: &[u8]) -> &[u8]
    ensures { result.now ≡ trimmed text.now }
{
    let mut rest = text;
    while let [others @ .., last] = rest {
        if !is_blank(*last) {
            return rest;
        }
        rest = others;
    }
    rest
}

/// Whether the word is one of these. A `match` over byte strings would be proved byte by byte
/// wherever it stands; this is proved once.
pub fn is_among(words: &[&[u8]], word: &[u8]) -> bool
    ensures { result ≡ is_one_of words.now word.now }
{
    words.contains(&word)
}

/// Returns the word at the front, and what follows it.
pub fn word(text: &[u8]) -> (&[u8], &[u8])
    ensures word { result.0.now ≡ front is_solid text.now }
    ensures rest { result.1.now ≡ after is_solid text.now }
{
    let mut len = 0;
    while len < text.len() && !is_blank(text[len]) {
        len += 1;
    }
    text.split_at(len)
}

/// Returns the number in the digits at the front, at most 1,000,000, and what follows them.
pub fn digits(text: &[u8]) -> (u32, &[u8])
    ensures value { result.0 ≡ min 1_000_000 (decimal (front is_digit text.now)) }
    ensures rest { result.1.now ≡ after is_digit text.now }
    ensures parts { length (front is_digit text.now) + length result.1.now ≡ length text.now }
{
    let mut value = 0u32;
    let mut len = 0;
    while len < text.len() && is_digit(text[len]) {
        value = (value * 10 + u32::from(text[len] - b'0')).min(1_000_000);
        len += 1;
    }
    (value, &text[len..])
}

/// Returns the first line, and what follows its newline.
pub fn first_line(text: &[u8]) -> (&[u8], &[u8])
    requires { text.now ≢ [] }
    ensures line { lines_of text.now ≡ result.0.now ∷ lines_of result.1.now }
    ensures shorter { length result.1.now < length text.now }
{
    match memchr(b'\n', text) {
        Some(at) => (&text[..at], &text[at + 1..]),
        None => (text, &text[text.len()..]),
    }
}
