//! The words of a script's line.
ghost use Rattle.std.specs.Prelude.{◌≡◌, ◌≤◌, ◌==◌, min, option_map, position};
ghost use Rattle.std.specs.List.{list_all};
ghost use Rattle.cs_table.specs.Text.{decimal, is_digit};
ghost use Rattle.cs_report.specs.Grammar.{is_word_byte};
ghost use Rattle.cs_report.specs.Reading.{first_word, is_moment, is_number, is_word};

fn first_space(text: &[u8]) -> Option<usize>
    ensures { result ≡ position (λ b. b == 32) text.now }
{
    text.iter().position(|byte| *byte == b' ')
}

#[tactic(auto, using(crate::proofs::FirstWord::no_space, crate::proofs::FirstWord::space_in_front, crate::proofs::FirstWord::space_behind))]
pub(crate) fn first_word(text: &[u8]) -> Option<(&[u8], &[u8])>
    ensures { option_map (λ parts. (parts.0.now, parts.1.now)) result ≡ first_word text.now }
{
    match first_space(text) {
        Some(at) if at != 0 => Some((&text[..at], &text[at + 1..])),
        Some(_) | None => None,
    }
}

fn has_no_space(text: &[u8]) -> bool
    ensures { result ≡ list_all is_word_byte text.now }
{
    text.iter().all(|byte| *byte != b' ')
}

#[tactic(auto, unfolding(crate::specs::Reading::is_word))]
pub(crate) fn is_word(text: &[u8]) -> bool
    ensures { result ≡ is_word text.now }
{
    !text.is_empty() && has_no_space(text)
}

fn has_only_digits(text: &[u8]) -> bool
    ensures { result ≡ list_all is_digit text.now }
{
    text.iter().all(|byte| byte.is_ascii_digit())
}

#[tactic(auto, unfolding(crate::specs::Reading::is_number))]
pub(crate) fn is_number(text: &[u8]) -> bool
    ensures { result ≡ is_number text.now }
{
    !text.is_empty() && has_only_digits(text)
}

#[tactic(auto, unfolding(crate::specs::Reading::is_moment))]
pub(crate) fn is_moment(text: &[u8]) -> bool
    ensures { result ≡ is_moment text.now }
{
    match first_word(text) {
        Some((_, rest)) => is_word(rest),
        None => false,
    }
}

pub(crate) fn number(digits: &[u8]) -> u64
    ensures { result ≡ min 4_294_967_296 (decimal digits.now) }
{
    let mut value = 0u64;
    for digit in digits {
        value = (value * 10 + u64::from(digit.saturating_sub(b'0'))).min(4_294_967_296);
    }
    value
}
