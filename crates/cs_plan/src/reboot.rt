//! Finds the first line that starts a command at startup.
ghost use Rattle.std.specs.Prelude.{◌≡◌, option_map};
ghost use Rattle.std.specs.List.{find};
ghost use Rattle.cs_plan.specs.Reboot.{at_line, is_reboot};

use crate::fault::{DeclFault, Place};
use cs_crontab::{Line, When};

/// A fault, and its place if it has one.
pub type Found = (DeclFault, Option<Place>);

/// Whether the line starts its command at startup (`@reboot`, `crontab(5)`).
pub fn is_reboot(line: &Line) -> bool
    ensures { result ≡ is_reboot line.now.when }
{
    match line.when() {
        When::At(_) => false,
        When::Reboot => true,
    }
}

/// Returns the first such line.
pub fn first_reboot(lines: &[Line]) -> Option<&Line>
    ensures { option_map (λ l. l.now) result ≡ find (λ line. is_reboot line.when) lines.now }
{
    lines.iter().find(|line| is_reboot(line))
}

/// Returns the fault at a line; none without a line.
pub fn at_line(fault: DeclFault, line: Option<&Line>) -> Option<Found>
    ensures { result ≡ at_line fault (option_map (λ l. l.now) line.entry) }
{
    match line {
        Some(line) => Some((fault, Some(Place::Line(line.number())))),
        None => None,
    }
}
