//! The name that may be meant by a misspelt one.
use crate::kind::Kind;
use std::alloc::{AllocError, Global};
use strsim::levenshtein;

/// The most edits between a name and the one that may be meant.
const MOST_EDITS: usize = 2;

/// Each edit needs so many bytes of the name.
const BYTES_OF_AN_EDIT: usize = 3;

/// The longest name that is compared, in bytes.
const LONGEST_NAME: usize = 40;

/// The best guess so far: the name with the fewest edits.
#[derive(Clone, Copy)]
struct Guess {
    edits: usize,
    name: Option<&'static str>,
}

/// The better one of a guess and the names of a kind; `sought` is in lower case.
fn guess_among(alloc: Global, sought: &str, kind: Kind, first: Guess) -> Result<Guess, AllocError> {
    let mut guess = first;
    for meaning in kind.meanings() {
        let name = meaning.name.to_ascii_lowercase(alloc)?;
        let edits = levenshtein(alloc, sought, name.as_str())?;
        if edits < guess.edits {
            guess = Guess {
                edits,
                name: Some(meaning.name),
            };
        }
    }
    Ok(guess)
}

/// The nearest of these kinds' names: at most 2 edits away, and at most one for each 3 bytes of the
/// given name, which has at most 40. An edit inserts, drops or changes a letter; of several names
/// the first in the order of [`names`](crate::names) counts. Case doesn't matter.
pub(crate) fn nearest(
    alloc: Global,
    name: &str,
    kinds: &[Kind],
) -> Result<Option<&'static str>, AllocError> {
    if name.len() > LONGEST_NAME {
        return Ok(None);
    }
    let sought = name.to_ascii_lowercase(alloc)?;
    let mut guess = Guess {
        edits: MOST_EDITS.min(name.len() / BYTES_OF_AN_EDIT) + 1,
        name: None,
    };
    for kind in kinds {
        guess = guess_among(alloc, sought.as_str(), *kind, guess)?;
    }
    Ok(guess.name)
}

/// The nearest name of what `lint` calls odd, as [`nearest`] finds it. The only error is out of
/// memory.
pub fn nearest_odd(alloc: Global, name: &str) -> Result<Option<&'static str>, AllocError> {
    nearest(alloc, name, &[Kind::Odd])
}
