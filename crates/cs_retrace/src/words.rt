ghost use Rattle.std.specs.Prelude.{◌≡◌, ◌≤◌, true, min, bytes_eq, IfSome, option_map};
ghost use Rattle.std.specs.List.{list_all};
ghost use Rattle.cs_table.specs.Text.{is_digit, decimal};
ghost use Rattle.cs_table.specs.SettingReading.{quoted_at};
ghost use Rattle.cs_retrace.specs.Words.{behind, number_of};

use memchr::memchr;

/// Returns what stands before the first such byte, and what follows it.
pub fn split(byte: u8, text: &[u8]) -> Option<(&[u8], &[u8])>
    ensures { option_map (λ p. (p.0.now, p.1.now)) result ≡ quoted_at byte text.now }
{
    let at = memchr(byte, text)?;
    Some((&text[..at], &text[at + 1..]))
}

/// Checks whether the text is this word.
pub fn is_word(text: &[u8], word: &[u8]) -> bool
    ensures { result ≡ bytes_eq text.now word.now }
{
    text == word
}

/// Returns what follows these bytes, if the text begins with them.
#[tactic(auto, unfolding(crate::specs::Words::behind))]
pub fn behind<'t>(start: &[u8], text: &'t [u8]) -> Option<&'t [u8]>
    ensures { option_map (λ rest. rest.now) result ≡ behind start.now text.now }
{
    if !text.starts_with(start) {
        return None;
    }
    Some(&text[start.len()..])
}

/// Returns the number of decimal digits, if the text is nothing else and it is at most
/// 999,999,999,999.
#[tactic(auto, unfolding(crate::specs::Words::number_of))]
pub fn number(text: &[u8]) -> Option<u64>
    ensures value { result ≡ number_of text.now }
    ensures small { IfSome result (λ n. n ≤ 999_999_999_999) }
{
    if text.is_empty() || !are_digits(text) {
        return None;
    }
    let value = decimal(text);
    if value > 999_999_999_999 {
        return None;
    }
    Some(value)
}

fn are_digits(text: &[u8]) -> bool
    ensures { result ≡ list_all is_digit text.now }
{
    text.iter().all(|byte| byte.is_ascii_digit())
}

fn decimal(text: &[u8]) -> u64
    requires { list_all is_digit text.now ≡ true }
    ensures { result ≡ min 1_000_000_000_000 (decimal text.now) }
{
    let mut value = 0u64;
    for byte in text {
        value = value
            .saturating_mul(10)
            .saturating_add(u64::from(byte.saturating_sub(b'0')));
        value = value.min(1_000_000_000_000);
    }
    value
}
