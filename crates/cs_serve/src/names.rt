//! What people call the jobs of a plan.
ghost use Rattle.std.specs.Prelude.{◌≡◌, option_map};
ghost use Rattle.cs_serve.specs.Names.{label_of};

use cs_crontab::Line;
use cs_decl::{CronEntry, is_named};
use cs_plan::{Plan, identifier_of};
use memchr::{memchr2, memrchr};

fn label_of<'e>(entries: &'e [CronEntry], line: &Line) -> Option<&'e [u8]>
    ensures { option_map (λ label. label.now) result ≡ label_of entries.now line.now }
{
    for entry in entries {
        if is_named(&entry.name, line) {
            let label = entry.label.as_ref()?;
            return Some(label.as_slice());
        }
    }
    None
}

/// A simple rule: the first word, without what stands up to its last `/`. So it is for a command
/// that begins with a setting or a bracket, too.
fn program_of(command: &[u8]) -> &[u8] {
    let word = match memchr2(b' ', b'\t', command) {
        Some(end) => &command[..end],
        None => command,
    };
    match memrchr(b'/', word) {
        Some(slash) => &word[slash + 1..],
        None => word,
    }
}

fn line_name<'t>(entries: &'t [CronEntry], line: &'t Line) -> &'t [u8] {
    match label_of(entries, line) {
        Some(label) if !label.is_empty() => label,
        _ => program_of(line.command()),
    }
}

/// The name of the first entry that names the job's line of the crontab, if it isn't empty, else
/// the program of its command; the identifier of a job of the anacrontab.
pub(crate) fn name_of<'t>(plan: &'t Plan, entries: &'t [CronEntry], number: usize) -> &'t [u8] {
    match plan.crontab().lines().get(number) {
        Some(line) => line_name(entries, line),
        None => identifier_of(plan, number),
    }
}
