ghost use Rattle.std.specs.Prelude.{◌≡◌, ◌∷◌, ◌<◌, ℕ, List, Option, length, IfOk, IfSome};
ghost use Rattle.std.specs.List.{join_with_byte};
ghost use Rattle.std.specs.Option.{option_map};
ghost use Rattle.cs_crontab.specs.Token.{pieces_seen, IsShorter};
ghost use Rattle.cs_crontab.specs.Command.{AreParts, pieces_of, pieces_behind, parts_from};

use cs_civil::{Bytes, Sequence};
use std::alloc::{AllocError, Global};

/// What a text begins with.
enum Token<'a> {
    End,
    /// A `%` without a backslash, and the rest.
    Mark(&'a [u8]),
    /// A byte, `%` for `\%`, and the rest.
    Byte(u8, &'a [u8]),
}

#[tactic(auto, unfolding(crate::specs::Command::pieces_of))]
fn first_token(text: &[u8]) -> Token<'_>
    ensures pieces { pieces_of text.now ≡ pieces_seen result }
    ensures shorter { IsShorter result text.now }
{
    match text {
        [] => Token::End,
        [b'%', rest @ ..] => Token::Mark(rest),
        [b'\\', b'%', rest @ ..] => Token::Byte(b'%', rest),
        [byte, rest @ ..] => Token::Byte(*byte, rest),
    }
}

/// The text up to the first `%` without a backslash, and the rest after that `%`.
fn piece(alloc: Global, text: &[u8]) -> Result<(Vec<u8>, Option<&[u8]>), AllocError>
    ensures pieces { IfOk result
        (λ x. pieces_of text.now ≡ x.0.items ∷ pieces_behind (option_map (λ r. r.now) x.1)) }
    ensures shorter { IfOk result (λ x. IfSome x.1 (λ r. length r.now < length text.now)) }
{
    let mut piece = Vec::new(alloc);
    let mut rest = text;
    loop {
        match first_token(rest) {
            Token::End => return Ok((piece, None)),
            Token::Mark(more) => return Ok((piece, Some(more))),
            Token::Byte(byte, more) => {
                piece.push(byte)?;
                rest = more;
            }
        }
    }
}

fn lines(alloc: Global, text: &[u8]) -> Result<Vec<u8>, AllocError>
    ensures { IfOk result (λ v. v.items ≡ join_with_byte 10 (pieces_of text.now)) }
{
    let (mut lines, mut behind) = piece(alloc, text)?;
    while let Some(rest) = behind {
        let (line, more) = piece(alloc, rest)?;
        lines.push(b'\n')?;
        lines.extend_from_slice(line.as_slice())?;
        behind = more;
    }
    Ok(lines)
}

fn read_parts(alloc: Global, command: &[u8]) -> Result<(Bytes, Option<Bytes>), AllocError>
    ensures { IfOk result (λ parts. parts ≡ parts_from (pieces_of command.now)) }
{
    let (first, behind) = piece(alloc, command)?;
    let input = match behind {
        None => None,
        Some(rest) => Some(Sequence::from_vec(lines(alloc, rest)?)),
    };
    Ok((Sequence::from_vec(first), input))
}

/// Returns the command to run and its standard input, if it has one (crontab(5)).
///
/// The first `%` without a backslash ends the command. What follows is the input, in which each
/// further one is a newline. `\%` is `%`, any other backslash stays, and no newline is added to the
/// input (this profile).
pub fn command_parts(alloc: Global, command: &[u8]) -> Result<(Bytes, Option<Bytes>), AllocError>
    // The parts give the command again.
    ensures parts { IfOk result (AreParts command.now) }
    // No other parts do.
    ensures only { (parts : List ℕ × Option (List ℕ)) → AreParts command.now parts
        → IfOk result (λ answer. answer ≡ parts) }
{
    read_parts(alloc, command)
}
