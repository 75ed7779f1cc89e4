//! Where the lines of a gathered table come from.
use crate::findings::Note;
use cs_crontab::{Entry, read_line};
use cs_place::{Place, is_mark_name, push_place_text, push_places};
use cs_table::MAX_TABLE;
use std::alloc::{AllocError, Global};

/// The places that the comments of a gathered table give. The table may have a fault, if the line
/// with the mark can be read. The only error is out of memory.
pub fn places_in(alloc: Global, bytes: &[u8]) -> Result<Vec<Place>, AllocError> {
    let mut places = Vec::new(alloc);
    if bytes.len() > MAX_TABLE {
        return Ok(places);
    }
    for line in bytes.split(|byte| *byte == b'\n') {
        match read_line(line) {
            Ok(Entry::Setting(name, _)) if is_mark_name(name) => {
                push_places(alloc, &mut places, bytes)?;
                return Ok(places);
            }
            _ => {}
        }
    }
    Ok(places)
}

/// Notes such as `line 14 is /etc/cron.d/munin:12 (munin)`. The only error is out of memory.
pub fn notes_on(alloc: Global, places: &[Place]) -> Result<Vec<Note>, AllocError> {
    let mut notes = Vec::new(alloc);
    for place in places.iter() {
        let line = u64::from(place.line);
        let mut text = format!(in alloc; "line {line} is ")?.into_bytes();
        push_place_text(&mut text, place)?;
        notes.push(Note { line, text })?;
    }
    Ok(notes)
}
