//! The runs that have started and not yet ended, as a log reports them.

use cs_civil::Bytes;
use std::alloc::Global;

/// Returns how many seconds a run took, if the line reports its end: 0 if the clock was put back,
/// none if the start wasn't noted or there is no time. A start without a time isn't noted, nor one
/// for which memory runs out.
pub(crate) fn note_run(
    alloc: Global,
    starts: &mut Vec<(Bytes, u64)>,
    words: &[u8],
    at: Option<u64>,
) -> Option<u64> {
    if let Some(name) = words.strip_prefix(b"started ") {
        let at = at?;
        if let Ok(name) = Bytes::from_slice(alloc, name) {
            let _ = starts.push((name, at));
        }
        return None;
    }
    for place in 0..starts.len() {
        if is_last_of(words, starts[place].0.as_slice()) {
            let (_, started) = starts.remove(place);
            if words.starts_with(b"ended ") {
                return Some(at?.saturating_sub(started));
            }
            return None;
        }
    }
    None
}

/// Whether the words report its end, or that it couldn't be started.
pub(crate) fn is_last_of(words: &[u8], name: &[u8]) -> bool {
    if let Some(told) = words.strip_prefix(b"not started ") {
        return told == name;
    }
    let Some(told) = words.strip_prefix(b"ended ") else {
        return false;
    };
    match told.strip_prefix(name) {
        Some(how) => how.starts_with(b" status ") || how.starts_with(b" signal "),
        None => false,
    }
}
