//! The names of parts that run-parts(8) runs, and the comments with them.
ghost use Rattle.std.specs.Prelude.{◌≡◌, ◌==◌, IsTrue, option_map};
ghost use Rattle.std.specs.List.{list_all};
ghost use Rattle.std.specs.Str.{IsUtf8};
ghost use Rattle.cs_place.specs.Places.{is_name_byte, is_part_name, part_in};

/// Precedes the name of a part in its comment.
pub const PART: &[u8] = b"#@ part ";

fn is_name_byte(byte: u8) -> bool
    ensures { result ≡ is_name_byte byte }
{
    byte.is_ascii_alphanumeric() || byte == b'_' || byte == b'-'
}

fn has_only_name_bytes(name: &[u8]) -> bool
    ensures { result ≡ list_all is_name_byte name.now }
{
    name.iter().all(|byte| is_name_byte(*byte))
}

/// Whether run-parts(8) runs a program of this name, and cron(8) reads a table of it in a folder of
/// tables: it consists of ASCII letters, digits, `_` and `-`.
#[tactic(auto, using(crate::proofs::PartNames::part_name_is_text))]
pub fn is_part_name(name: &[u8]) -> bool
    ensures value { result ≡ is_part_name name.now }
    ensures text { IsTrue result → IsUtf8 name.now }
{
    !name.is_empty() && has_only_name_bytes(name)
}

#[tactic(auto, unfolding(crate::specs::Places::part_in))]
pub(crate) fn part_in(comment: &[u8]) -> Option<&[u8]>
    ensures { option_map (λ name. name.now) result ≡ part_in comment.now }
{
    if !comment.starts_with(PART) {
        return None;
    }
    let name = &comment[PART.len()..];
    if is_part_name(name) { Some(name) } else { None }
}
