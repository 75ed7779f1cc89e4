ghost use Rattle.std.specs.Prelude.{◌≡◌, ◌==◌, length, option_map, slice_get};
ghost use Rattle.std.specs.List.{slice_split};

/// The piece between two separators, by its number from 0.
pub(crate) fn piece(text: &[u8], separator: u8, index: usize) -> Option<&[u8]>
    ensures { option_map (λ piece. piece.now) result
        ≡ slice_get (slice_split (λ b. b == separator) text.now) index }
{
    text.split(|byte| *byte == separator).nth(index)
}

pub(crate) fn piece_count(text: &[u8], separator: u8) -> usize
    ensures { result ≡ length (slice_split (λ b. b == separator) text.now) }
{
    text.split(|byte| *byte == separator).count()
}
