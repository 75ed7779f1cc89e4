ghost use Rattle.std.specs.Prelude.{◌≡◌, ◌<◌, ◌≤◌, position, length, IfSome};
ghost use Rattle.cs_crontab.specs.Format.{names_of, place_of};

use cs_schedule::Part;

const MONTHS: [[u8; 3]; 12] = [
    *b"jan", *b"feb", *b"mar", *b"apr", *b"may", *b"jun", *b"jul", *b"aug", *b"sep", *b"oct",
    *b"nov", *b"dec",
];

const WEEKDAYS: [[u8; 3]; 7] = [
    *b"sun", *b"mon", *b"tue", *b"wed", *b"thu", *b"fri", *b"sat",
];

fn names(part: Part) -> &'static [[u8; 3]]
    ensures value { result.now ≡ names_of part }
    ensures few { length result.now ≤ 12 }
{
    match part {
        Part::Month => &MONTHS,
        Part::Dow => &WEEKDAYS,
        Part::Minute | Part::Hour | Part::Dom => &[],
    }
}

/// A field's name may be in upper or lower case (crontab(5)).
#[tactic(auto, unfolding(crate::specs::Format::place_of))]
pub(crate) fn name_place(part: Part, name: &[u8]) -> Option<usize>
    ensures value { result ≡ place_of part name.now }
    ensures few { IfSome result (λ place. place < 12) }
{
    names(part)
        .iter()
        .position(|known| known.eq_ignore_ascii_case(name))
}
