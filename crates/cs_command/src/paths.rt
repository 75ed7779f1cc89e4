//! The paths of lock files: which file each is, and how often it is in a text.
ghost use Rattle.std.specs.Prelude.{◌≡◌, ◌==◌, ◌∷◌, [], codes, count_by, option_map};
ghost use Rattle.std.specs.List.{slice_split};
ghost use Rattle.cs_command.specs.Words.{is_among};
ghost use Rattle.cs_command.specs.Locks.{behind_place, behind_var, common_path, has_one_place, is_below};
ghost use Rattle.cs_command.specs.Locks.{is_file};

use cs_table::text::is_among;

fn is_off(part: &[u8]) -> bool
    ensures { result ≡ is_among ([] ∷ codes "." ∷ codes ".." ∷ []) part.now }
{
    let words: [&[u8]; 3] = [b"", b".", b".."];
    is_among(&words, part)
}

fn parts_off(path: &[u8]) -> usize
    ensures { result ≡ count_by (is_among ([] ∷ codes "." ∷ codes ".." ∷ []))
        (slice_split (λ b. b == 47) path.now) }
{
    path.split(|byte| *byte == b'/')
        .filter(|part| is_off(part))
        .count()
}

pub fn is_below(folder: &[u8], path: &[u8]) -> bool
    ensures { result ≡ is_below folder.now path.now }
{
    path.starts_with(folder)
}

#[tactic(auto, unfolding(crate::specs::Locks::is_file))]
pub(crate) fn is_file(path: &[u8]) -> bool
    ensures { result ≡ is_file path.now }
{
    is_below(b"/", path)
        && parts_off(path) == 1
        && !is_below(b"/proc/", path)
        && !is_below(b"/dev/", path)
}

#[tactic(auto, unfolding(crate::specs::Locks::behind_var), using(crate::proofs::Longer::is_longer))]
pub(crate) fn behind_var(path: &[u8]) -> &[u8]
    ensures { result.now ≡ behind_var path.now }
{
    if is_below(b"/var/run/", path) {
        return &path[4..];
    }
    if is_below(b"/var/lock/", path) {
        return &path[4..];
    }
    path
}

#[tactic(auto, unfolding(crate::specs::Locks::common_path), using(crate::proofs::Longer::is_longer))]
pub(crate) fn common_path(path: &[u8]) -> &[u8]
    ensures { result.now ≡ common_path path.now }
{
    let path = behind_var(path);
    if is_below(b"/run/lock/", path) {
        return &path[4..];
    }
    path
}

/// After the first byte of the first place of a text in another one.
#[tactic(auto, unfolding(crate::specs::Locks::behind_place))]
pub fn behind_place<'t>(part: &[u8], text: &'t [u8]) -> Option<&'t [u8]>
    ensures { option_map (λ rest. rest.now) result ≡ behind_place part.now text.now }
{
    let mut rest = text;
    while let [_, others @ ..] = rest {
        if is_below(part, rest) {
            return Some(others);
        }
        rest = others;
    }
    None
}

pub(crate) fn has_one_place(part: &[u8], text: &[u8]) -> bool
    ensures { result ≡ has_one_place part.now text.now }
{
    match behind_place(part, text) {
        Some(rest) => behind_place(part, rest).is_none(),
        None => true,
    }
}
