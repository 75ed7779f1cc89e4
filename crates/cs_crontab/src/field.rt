ghost use Rattle.std.specs.Prelude.{◌≡◌, ◌<◌, ◌≤◌, ◌+◌, ◌^◌, ◌∷◌, ℕ, List, length, take, drop, IfOk, IfSome, IsErr};
ghost use Rattle.std.specs.List.{slice_split};
ghost use Rattle.std.specs.Option.{option_map};
ghost use Rattle.cs_schedule.specs.Times.{IsWithin};
ghost use Rattle.cs_crontab.specs.Format.{place_of, is_comma};
ghost use Rattle.cs_crontab.specs.Reading.{named, number_at, step_at, cut_step, every, end_at, range_at, numbers_at, item_at, items_behind, item_of, list_of, field_of, field_at};
ghost use Rattle.cs_table.specs.Wrong.{Gives, marked, moved};
ghost use Rattle.cs_crontab.specs.Grammar.{IsItem};

use crate::fault::LineFault;
use crate::name::name_place;
use cs_schedule::{Field, Numbers, Part};
use cs_table::text::{digits, skip_blanks, word};
use cs_table::{Wrong, marked, moved};
use memchr::memchr;

fn named(part: Part, text: &[u8]) -> Result<(u8, &[u8]), LineFault>
    ensures { Gives (λ x. (x.0, x.1.now)) result
        (named part (place_of part (take 3 text.now)) (drop 3 text.now)) }
{
    let (name, rest) = text.split_at(text.len().min(3));
    match name_place(part, name) {
        Some(place) => Ok((part.first() + place as u8, rest)),
        None => Err(LineFault::BadNumber),
    }
}

#[tactic(auto, unfolding(crate::specs::Reading::number_at))]
fn number(part: Part, text: &[u8]) -> Result<(u8, &[u8]), LineFault>
    ensures { Gives (λ x. (x.0, x.1.now)) result (number_at part text.now) }
{
    let (value, rest) = digits(text);
    if rest.len() == text.len() {
        return named(part, text);
    }
    let first = u32::from(part.first());
    if value < first {
        return Err(LineFault::OutOfField);
    }
    let last = u32::from(part.last());
    if last < value {
        return Err(LineFault::OutOfField);
    }
    Ok((value as u8, rest))
}

#[tactic(auto, unfolding(crate::specs::Reading::step_at))]
fn step(text: &[u8]) -> Result<(u32, &[u8]), LineFault>
    ensures gives { Gives (λ x. (x.0, x.1.now)) result (cut_step (step_at text.now)) }
    ensures positive { IfOk result (λ x. 0 < x.0) }
{
    match text {
        [b'/', rest @ ..] => {
            let (value, rest) = digits(rest);
            if value == 0 {
                Err(LineFault::BadStep)
            } else {
                Ok((value, rest))
            }
        }
        _ => Ok((1, text)),
    }
}

fn every(first: u8, last: u8, text: &[u8]) -> Result<(Numbers, &[u8]), LineFault>
    ensures { Gives (λ x. (x.0, x.1.now)) result (every first last (step_at text.now)) }
{
    let (n, rest) = step(text)?;
    Ok((Numbers::every(first, last, n), rest))
}

#[tactic(auto, unfolding(crate::specs::Reading::end_at))]
fn end(part: Part, first: u8, text: &[u8]) -> Result<(Numbers, &[u8]), LineFault>
    ensures { Gives (λ x. (x.0, x.1.now)) result (end_at part first text.now) }
{
    let (last, rest) = number(part, text)?;
    if last < first {
        return Err(LineFault::Reversed);
    }
    every(first, last, rest)
}

#[tactic(auto, unfolding(crate::specs::Reading::range_at))]
fn range(part: Part, first: u8, text: &[u8]) -> Result<(Numbers, &[u8]), LineFault>
    ensures { Gives (λ x. (x.0, x.1.now)) result (range_at part first text.now) }
{
    match text {
        [b'-', rest @ ..] => end(part, first, rest),
        [b'/', ..] => Err(LineFault::StepOnNumber),
        _ => Ok((Numbers::every(first, first, 1), text)),
    }
}

#[tactic(auto, unfolding(crate::specs::Reading::item_at, crate::specs::Reading::numbers_at))]
fn item(part: Part, text: &[u8]) -> Result<(Numbers, &[u8]), LineFault>
    ensures { Gives (λ x. (x.0, x.1.now)) result (item_at part text.now) }
{
    match text {
        [] => Err(LineFault::BadNumber),
        [b'*', rest @ ..] => every(part.first(), part.last(), rest),
        _ => {
            let (first, rest) = number(part, text)?;
            range(part, first, rest)
        }
    }
}

fn first_item(text: &[u8]) -> (&[u8], Option<&[u8]>)
    ensures items { slice_split is_comma text.now
        ≡ result.0.now ∷ items_behind (option_map (λ x. x.now) result.1) }
    ensures shorter { IfSome result.1 (λ x. length x.now < length text.now) }
{
    match memchr(b',', text) {
        Some(at) => (&text[..at], Some(&text[at + 1..])),
        None => (text, None),
    }
}

#[tactic(auto, unfolding(crate::specs::Reading::item_of))]
fn whole_item(part: Part, text: &[u8]) -> Result<Numbers, LineFault>
    ensures { result ≡ item_of part text.now }
{
    let (numbers, rest) = item(part, text)?;
    if !rest.is_empty() {
        return Err(LineFault::BadNumber);
    }
    Ok(numbers)
}

/// Reads all of a text as an item of a field: `*`, `a` or `a-z`, with or without a step; or returns
/// its first fault from left to right.
pub fn read_item(part: Part, text: &[u8]) -> Result<Numbers, LineFault>
    ensures written { IfOk result (IsItem part text.now) }
    ensures none { IsErr result → (numbers : List ℕ) → IsItem part text.now numbers → ⊥ }

    // the same, as a value
    ensures value { result ≡ item_of part text.now }
{
    whole_item(part, text)
}

/// An item, where so many bytes of its word are left.
fn placed_item(part: Part, left: usize, text: &[u8]) -> Result<Numbers, Wrong<LineFault>>
    ensures { result ≡ marked left (length text.now) (item_of part text.now) }
{
    marked(left, text.len(), whole_item(part, text))
}

fn list(part: Part, word: &[u8]) -> Result<Numbers, Wrong<LineFault>>
    ensures { result ≡ list_of part word.now }
{
    let mut numbers = Numbers::none();
    let mut rest = word;
    loop {
        let (text, behind) = first_item(rest);
        let item = placed_item(part, rest.len(), text)?;
        numbers = numbers.union(&item);
        match behind {
            None => return Ok(numbers),
            Some(more) => rest = more,
        }
    }
}

#[tactic(auto, unfolding(crate::specs::Reading::field_of))]
fn field(part: Part, word: &[u8]) -> Result<Field, Wrong<LineFault>>
    ensures { result ≡ field_of part word.now }
{
    let numbers = list(part, word)?;
    let star = matches!(word, [b'*', ..]);
    let numbers = match part {
        Part::Dow => numbers.in_week(),
        Part::Minute | Part::Hour | Part::Dom | Part::Month => numbers,
    };
    Ok(Field::new(star, numbers))
}

/// The field that a word is, where so many bytes follow it.
fn placed_field(part: Part, word: &[u8], more: usize) -> Result<Field, Wrong<LineFault>>
    requires { length word.now + more < 2 ^ 64 }
    ensures { result ≡ moved more (field_of part word.now) }
{
    moved(more, field(part, word))
}

/// The field in the next word, and the text from the word after it on.
#[tactic(auto, unfolding(crate::specs::Reading::field_at))]
pub(crate) fn next_field(part: Part, text: &[u8]) -> Result<(Field, &[u8]), Wrong<LineFault>>
    ensures gives { Gives (λ x. (x.0, x.1.now)) result (field_at part text.now) }
    ensures within { IfOk result (λ x. IsWithin part x.0.numbers) }
{
    if text.is_empty() {
        return Err(Wrong::at_end(LineFault::MissingField));
    }
    let (word, rest) = word(text);
    let field = placed_field(part, word, rest.len())?;
    Ok((field, skip_blanks(rest)))
}
