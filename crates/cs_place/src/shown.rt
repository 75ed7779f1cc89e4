//! Bytes as they are shown.
ghost use Rattle.std.specs.Prelude.{◌≡◌, ◌<◌, ◌++◌, OnOk};
ghost use Rattle.cs_place.specs.Shown.{is_plain, hex_digit, hex, shown, shown_text};
ghost use Rattle.cs_place.specs.Shown.{is_harmful_pair, is_harmful_triple, harmful};

use std::alloc::AllocError;

fn is_plain(byte: u8) -> bool
    ensures { result ≡ is_plain byte }
{
    32 <= byte && byte != 127 && byte != b'\\'
}

fn hex_digit(digit: u8) -> u8
    requires { digit < 16 }
    ensures { result ≡ hex_digit digit }
{
    if digit < 10 { b'0' + digit } else { 87 + digit }
}

/// Adds `\xNN`. The only error is out of memory.
pub fn push_hex(text: &mut Vec<u8>, byte: u8) -> Result<(), AllocError>
    ensures { OnOk result (text.new.items ≡ text.old.items ++ hex byte) }
{
    text.extend_from_slice(&[b'\\', b'x', hex_digit(byte / 16), hex_digit(byte % 16)])
}

/// Adds a byte: `\xNN` for one below 32, 127 and `\`. The only error is out of memory.
pub fn push_byte(text: &mut Vec<u8>, byte: u8) -> Result<(), AllocError>
    ensures { OnOk result (text.new.items ≡ text.old.items ++ shown byte) }
{
    if is_plain(byte) {
        text.push(byte)?;
        return Ok(());
    }
    push_hex(text, byte)
}

fn is_harmful_pair(first: u8, second: u8) -> bool
    ensures { result ≡ is_harmful_pair first second }
{
    first == 0xC2 && 0x80 <= second && second <= 0x9F || first == 0xD8 && second == 0x9C
}

fn is_harmful_triple(first: u8, second: u8, third: u8) -> bool
    ensures { result ≡ is_harmful_triple first second third }
{
    first == 0xE2
        && (second == 0x80 && (0x8E <= third && third <= 0x8F || 0xA8 <= third && third <= 0xAE)
            || second == 0x81 && (0xA6 <= third && third <= 0xA9))
}

/// How many bytes the harmful character has that begins a text; 0 if none does.
pub fn harmful(text: &[u8]) -> usize
    ensures { result ≡ harmful text.now }
{
    match text {
        [first, second, ..] if is_harmful_pair(*first, *second) => 2,
        [first, second, third, ..] if is_harmful_triple(*first, *second, *third) => 3,
        _ => 0,
    }
}

/// Adds bytes so that a text stays one line, and a terminal shows it unharmed: a byte below 32, 127
/// and `\` as `\xNN`, and so each byte of a character of UTF-8 that controls a terminal
/// (U+0080 to U+009F), ends a line (U+2028, U+2029) or turns the direction of a text. The only
/// error is out of memory.
#[tactic(auto, unfolding(crate::specs::Shown::shown_from))]
pub fn push_shown(text: &mut Vec<u8>, bytes: &[u8]) -> Result<(), AllocError>
    ensures { OnOk result (text.new.items ≡ text.old.items ++ shown_text bytes.now) }
{
    let mut left = 0;
    let mut rest = bytes;
    while let [byte, others @ ..] = rest {
        if left == 0 {
            left = harmful(rest);
        }
        if left == 0 {
            push_byte(text, *byte)?;
        } else {
            push_hex(text, *byte)?;
            left -= 1;
        }
        rest = others;
    }
    Ok(())
}
