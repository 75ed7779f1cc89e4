ghost use Rattle.std.specs.Prelude.{◌≡◌, IfOk};
ghost use Rattle.serde_json.specs.View.{view};
ghost use Rattle.cs_wait.specs.declared.backlog.Piece.{Piece};
ghost use Rattle.cs_windows.specs.declared.tree.Entry.{Entry};
ghost use Rattle.cs_claims.specs.declared.class.Class.{Class};
ghost use Rattle.cs_claims.specs.declared.class.DueList.{DueList};
ghost use Rattle.cs_claims.specs.declared.class.GroupBacklog.{GroupBacklog};
ghost use Rattle.cs_windows.specs.declared.reach.JobReach.{JobReach};
ghost use Rattle.cs_cert.specs.Said.{class_said, due_list_said, entry_said, group_backlog_said, held_backlog, piece_said, reach_said};
ghost use Rattle.cs_cert.specs.Written.{class_data, due_list_data, entry_data, group_backlog_data, list_data, piece_data, reach_data};

use crate::form::{Form, member, pair, read_pair, read_triple, triple, write_each};
use cs_civil::Sequence;
use cs_claims::{Class, DueList, GroupBacklog};
use cs_json::{Misread, only_members};
use cs_wait::{Backlog, BadPiece, Piece};
use cs_windows::{Entry, JobReach};
use serde_json::{Value, json};
use std::alloc::{AllocError, Global};

/// `[job, [minutes]]`.
impl Form for DueList {
    ghost Seen = { DueList };

    ghost seen = { λ d. d };

    ghost said = { due_list_said };

    ghost written = { due_list_data };

    fn read(alloc: Global, value: &Value) -> Result<DueList, Misread> {
        let (job, minutes) = read_pair(alloc, value)?;
        Ok(DueList { job, minutes })
    }

    fn write(&self, alloc: Global) -> Result<Value, AllocError> {
        pair(alloc, self.job.write(alloc)?, self.minutes.write(alloc)?)
    }
}

/// `[minute, value]`.
impl Form for Piece {
    ghost Seen = { Piece };

    ghost seen = { λ p. p };

    ghost said = { piece_said };

    ghost written = { piece_data };

    fn read(alloc: Global, value: &Value) -> Result<Piece, Misread> {
        let (minute, value) = read_pair(alloc, value)?;
        Ok(Piece { minute, value })
    }

    fn write(&self, alloc: Global) -> Result<Value, AllocError> {
        pair(alloc, self.minute.write(alloc)?, self.value.write(alloc)?)
    }
}

/// The pieces of a group. Those that make no backlog become none, of a group out of range, 255.
pub(crate) fn held_backlog(alloc: Global, group: u8, pieces: Sequence<Piece>) -> GroupBacklog
    ensures { result ≡ held_backlog group pieces }
{
    match Backlog::new(pieces.into_vec()) {
        Ok(backlog) => GroupBacklog { group, backlog },
        Err(BadPiece) => GroupBacklog {
            group: u8::MAX,
            backlog: Backlog::none(alloc),
        },
    }
}

fn write_pieces(alloc: Global, pieces: &[Piece]) -> Result<Value, AllocError>
    ensures { IfOk result (λ v. view v ≡ list_data piece_data pieces.now) }
{
    Ok(Value::Array(write_each(alloc, pieces)?))
}

/// `[group, [[minute, value], ..]]`.
impl Form for GroupBacklog {
    ghost Seen = { GroupBacklog };

    ghost seen = { λ b. b };

    ghost said = { group_backlog_said };

    ghost written = { group_backlog_data };

    fn read(alloc: Global, value: &Value) -> Result<GroupBacklog, Misread> {
        let (group, pieces) = read_pair(alloc, value)?;
        Ok(held_backlog(alloc, group, pieces))
    }

    fn write(&self, alloc: Global) -> Result<Value, AllocError> {
        pair(
            alloc,
            self.group.write(alloc)?,
            write_pieces(alloc, self.backlog.pieces())?,
        )
    }
}

/// `{"due": .., "backlog": ..}`.
impl Form for Class {
    ghost Seen = { Class };

    ghost seen = { λ c. c };

    ghost said = { class_said };

    ghost written = { class_data };

    fn read(alloc: Global, value: &Value) -> Result<Class, Misread> {
        only_members(value, &["backlog", "due"])?;
        let due = member(alloc, value, "due")?;
        let backlog = member(alloc, value, "backlog")?;
        Ok(Class { due, backlog })
    }

    fn write(&self, alloc: Global) -> Result<Value, AllocError> {
        let due = self.due.write(alloc)?;
        let backlog = self.backlog.write(alloc)?;
        json!(in alloc; {"backlog": backlog, "due": due})
    }
}

/// `[job, reach]`.
impl Form for JobReach {
    ghost Seen = { JobReach };

    ghost seen = { λ r. r };

    ghost said = { reach_said };

    ghost written = { reach_data };

    fn read(alloc: Global, value: &Value) -> Result<JobReach, Misread> {
        let (job, reach) = read_pair(alloc, value)?;
        Ok(JobReach { job, reach })
    }

    fn write(&self, alloc: Global) -> Result<Value, AllocError> {
        pair(alloc, self.job.write(alloc)?, self.reach.write(alloc)?)
    }
}

/// `[job, day_back, from]`.
impl Form for Entry {
    ghost Seen = { Entry };

    ghost seen = { λ e. e };

    ghost said = { entry_said };

    ghost written = { entry_data };

    fn read(alloc: Global, value: &Value) -> Result<Entry, Misread> {
        let (job, day_back, from) = read_triple(alloc, value)?;
        Ok(Entry {
            job,
            day_back,
            from,
        })
    }

    fn write(&self, alloc: Global) -> Result<Value, AllocError> {
        triple(
            alloc,
            self.job.write(alloc)?,
            self.day_back.write(alloc)?,
            self.from.write(alloc)?,
        )
    }
}
