//! Reads declarations of jobs, and joins them with a crontab and an anacrontab to a plan.
#![tactic(auto)]

mod clock;
mod declarations;
mod doubled;
mod entries;
mod forward;
mod join_rows;
mod joining;
mod laws;
mod lookups;
mod names;
mod naming;
mod parts;
mod reading;
mod rows;
mod terms;
mod twice;
mod twice_started;
mod when;

pub use cs_plan::{
    DeclError, DeclFault, Group, Job, MAX_CAPACITY, MAX_GROUPS, MAX_MINUTES, MAX_OFFSET,
    MAX_WEIGHT, Place, Plan, identifier_of, push_command_name, push_due_name,
};
pub use declarations::{Declarations, read_declarations};
pub use entries::{
    AnacronEntry, CronEntry, DefaultEntry, Entries, GroupEntry, LineName, PartEntry,
};
pub use joining::join;
pub use laws::{
    commands_are_those_of_lines, doubled_members_are_told, each_entry_names_one_line,
    each_line_has_its_job, entries_stay_with_commands, first_of_faults,
    guesses_and_untimed_lines_are_told, left_out_lines_have_no_entry, parts_make_up_the_whole,
};
pub use naming::is_named;
pub use twice_started::line_started_twice;
pub use when::{is_same_when, is_told_when, named_when};
