//! Faults and oddities of the entries of declarations, by themselves and beside the tables.
use crate::entry::Tell;
use crate::lines::Shift;
use crate::table::Table;
use crate::wanted::Wanted;
use cs_diagnostics::{Declarations, Done, Entry, Findings, Kind, has_meant, texts_in};
use cs_plan::DeclFault;
use indexmap::IndexSet;
use serde_json::{Error, Value};
use std::alloc::{AllocError, Global};

#[derive(Drop)]
pub(crate) struct Declared<'v> {
    pub(crate) tell: Tell<'v>,
    /// The anacron jobs that have entries.
    pub(crate) identifiers: IndexSet<&'v [u8]>,
    /// The lines that entries name, and those that `left_out` names.
    pub(crate) lines: IndexSet<i128>,
    pub(crate) left_out: IndexSet<i128>,
    /// Whether each set is known to be complete; of jobs and lines also that there is no default.
    pub(crate) has_all_identifiers: bool,
    pub(crate) has_all_lines: bool,
    pub(crate) has_all_left_out: bool,
}

impl<'v> Declared<'v> {
    /// Checks declarations, which are `json`, beside the tables; `jobs` is none without an
    /// anacrontab.
    pub(crate) fn at(
        alloc: Global,
        bytes: &'v [u8],
        json: &'v Result<Value, Error>,
        table: &Table<'_>,
        jobs: Option<&Table<'_>>,
        wanted: Wanted<'v>,
    ) -> Result<Declared<'v>, AllocError> {
        let mut findings = Findings::new(alloc, bytes)?;
        findings.about = Some(0);
        let mut declared = Declared {
            tell: Tell {
                findings,
                wanted,
                bytes,
            },
            identifiers: IndexSet::new(alloc),
            lines: IndexSet::new(alloc),
            left_out: IndexSet::new(alloc),
            has_all_identifiers: false,
            has_all_lines: false,
            has_all_left_out: false,
        };
        match json {
            Ok(value) => {
                let declarations = Declarations::new(alloc, bytes, value)?;
                declared.look_at(&declarations, table, jobs)?;
            }
            Err(error) => declared.tell.findings.no_json(bytes, error)?,
        }
        Ok(declared)
    }

    fn look_at(
        &mut self,
        declarations: &Declarations<'v>,
        table: &Table<'_>,
        jobs: Option<&Table<'_>>,
    ) -> Done {
        let (alloc, bytes) = (self.tell.findings.alloc, self.tell.bytes);
        let entries = declarations.entries.as_slice();
        declarations.find_faults(&mut self.tell.findings, bytes)?;
        if !declarations.whole.is_object {
            return Ok(());
        }
        self.tell.find_again(&declarations.whole)?;
        self.tell.find_again_in(entries)?;
        self.look_at_identifiers(entries, jobs)?;
        let has_default = has_meant(alloc, &declarations.whole.object, "default")?;
        let has_all_cron = declarations.has_all(alloc, Kind::Cron)?;
        let has_all_jobs = declarations.has_all(alloc, Kind::Anacron)?;
        self.has_all_left_out = declarations.has_all(alloc, Kind::LeftOut)?;
        self.has_all_lines = has_all_cron && self.has_all_left_out && !has_default;
        self.has_all_identifiers = has_all_jobs && !has_default;
        if has_all_cron && has_all_jobs && !self.tell.findings.has_faults() {
            self.find_unused_groups(entries)?;
        }
        let shift = Shift::of(entries, table);
        self.look_at_names(entries, shift, table)
    }

    fn look_at_identifiers(&mut self, entries: &[Entry<'v>], jobs: Option<&Table<'_>>) -> Done {
        for entry in entries {
            if let Some((name, span)) = entry.text(Kind::Anacron, "id") {
                self.identifiers.insert(name.as_bytes())?;
                let why = match jobs {
                    Some(jobs) if !jobs.is_whole || jobs.lines_of(name).is_some() => continue,
                    Some(_) => "no such job: correct \"id\", or remove the entry",
                    None => "no anacrontab is given: use --anacrontab FILE",
                };
                self.tell
                    .findings
                    .fault_of(entry, span, DeclFault::NoSuchLine, why)?;
            }
        }
        Ok(())
    }

    /// Reports groups without entries. The caller makes sure that nothing else is wrong, as a slip
    /// in an entry may be the cause.
    fn find_unused_groups(&mut self, entries: &[Entry<'v>]) -> Done {
        let alloc = self.tell.findings.alloc;
        let cron = texts_in(alloc, entries, Kind::Cron, "group")?;
        let anacron = texts_in(alloc, entries, Kind::Anacron, "group")?;
        let groups = texts_in(alloc, entries, Kind::Group, "name")?;
        for (name, span) in groups.iter() {
            if !cron.contains_key(*name) && !anacron.contains_key(*name) {
                let why = "no entry is in this group: remove it, or set an entry's \"group\"";
                self.tell.odd(*span, "UnusedGroup", why)?;
            }
        }
        Ok(())
    }
}
