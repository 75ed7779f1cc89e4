ghost use Rattle.std.specs.Prelude.{◌≡◌, ◌<◌, IfOk, length, map};
ghost use Rattle.cs_claims.specs.Certificate.{content};
ghost use Rattle.cs_classes.specs.Likeness.{ArePlain};
ghost use Rattle.cs_classes.specs.Used.{classes_in};
ghost use Rattle.cs_classes.specs.WorkedOut.{IsWorkedOut, IsWorkedOutOf, classed_kind, first_classed};
ghost use Rattle.cs_civil.specs.Order.{all_kinds};
ghost use Rattle.cs_classes.specs.StandsFor.{class_lists, days_for, distinct, worked_classes, worked_of};

use crate::classed::{ClassedChain, classed_chains};
use crate::fitting::stretch_length;
use crate::planned::occupied;
use crate::worked::worked_class;
use crate::workers::Workers;
use cs_civil::{DayKind, Sequence, all_kinds};
use cs_claims::{Certificate, Class};
use cs_plan::Plan;
use indexmap::IndexSet;
use std::alloc::{AllocError, Global};

/// The classes and the stretches that a certificate of version 3 stands for.
#[derive(Drop)]
pub struct WorkedOut {
    /// The classes, by number.
    pub classes: Vec<Class>,
    /// The classes of each stretch.
    pub stretches: Vec<Sequence<u32>>,
}

#[derive(Clone, Copy)]
pub(crate) struct ClassedKind {
    kind: DayKind,
    class: u32,
}

pub(crate) fn classed_kinds(
    alloc: Global,
    certificate: &Certificate,
) -> Result<Vec<ClassedKind>, AllocError>
    ensures { IfOk result (λ kinds.
        kinds.items ≡ map (classed_kind (content certificate.now)) all_kinds) }
{
    let mut kinds = Vec::new(alloc);
    for kind in all_kinds() {
        let class = certificate.class_of(kind);
        kinds.push(ClassedKind { kind, class })?;
    }
    Ok(kinds)
}

fn first_kind(kinds: &[ClassedKind], class: u32) -> Option<DayKind>
    ensures { result ≡ first_classed kinds.now class }
{
    for classed in kinds {
        if classed.class == class {
            return Some(classed.kind);
        }
    }
    None
}

pub(crate) fn class_of_number(
    alloc: Global,
    plan: &Plan,
    certificate: &Certificate,
    kinds: &[ClassedKind],
    plain: &[Sequence<u16>],
    number: usize,
) -> Result<Class, AllocError>
    requires plain { ArePlain plan.now plain.now }
    requires there { number < length (content certificate.now).classes }
    requires kinds { kinds.now ≡ map (classed_kind (content certificate.now)) all_kinds }
    ensures { IfOk result (λ worked. worked ≡ worked_of plan.now (content certificate.now) number) }
{
    let class = &certificate.classes()[number];
    let kind = first_kind(kinds, number as u32);
    worked_class(alloc, plan, plain, kind, class)
}

fn distinct_lists(alloc: Global, chains: &[ClassedChain]) -> Result<IndexSet<&[u32]>, AllocError>
    ensures { IfOk result (λ lists.
        map (λ list. list.now) lists.keys ≡ distinct (map classes_in chains.now)) }
{
    let mut lists = IndexSet::new(alloc);
    for chain in chains {
        lists.insert(chain.classes.as_slice())?;
    }
    Ok(lists)
}

fn copies_of(alloc: Global, lists: &IndexSet<&[u32]>) -> Result<Vec<Sequence<u32>>, AllocError>
    ensures { IfOk result (λ copies. copies.items ≡ map (λ list. list.now) lists.now.keys) }
{
    let mut copies = Vec::new(alloc);
    for classes in lists.iter() {
        copies.push(Sequence::from_slice(alloc, classes)?)?;
    }
    Ok(copies)
}

fn stretches_of_kinds(
    alloc: Global,
    plan: &Plan,
    certificate: &Certificate,
) -> Result<Vec<Sequence<u32>>, AllocError>
    ensures { IfOk result (λ lists. lists.items
        ≡ class_lists (content certificate.now) (days_for plan.now (content certificate.now))) }
{
    let occupied = occupied(alloc, plan, certificate.reach())?;
    let days = stretch_length(occupied.as_slice());
    let chains = classed_chains(alloc, certificate.kinds(), days)?;
    let lists = distinct_lists(alloc, chains.as_slice())?;
    copies_of(alloc, &lists)
}

fn worked_out(
    alloc: Global,
    plan: &Plan,
    certificate: &Certificate,
    classes: Vec<Class>,
) -> Result<WorkedOut, AllocError>
    requires { classes.items ≡ worked_classes plan.now (content certificate.now) }
    ensures { IfOk result (IsWorkedOutOf plan.now (content certificate.now)) }
{
    let stretches = stretches_of_kinds(alloc, plan, certificate)?;
    Ok(WorkedOut { classes, stretches })
}

/// Returns what a certificate of version 3 stands for under a plan, or nothing for the other
/// versions, which list it themselves. The only error is out of memory.
pub fn work_out<W: Workers>(
    workers: &W,
    alloc: Global,
    plan: &Plan,
    certificate: &Certificate,
) -> Result<Option<WorkedOut>, AllocError>
    requires { W.can_work workers.now }
    ensures { IfOk result (IsWorkedOut plan.now (content certificate.now)) }
{
    if certificate.version() != 3 {
        return Ok(None);
    }
    let classes = workers.classes_worked_out(alloc, plan, certificate)?;
    Ok(Some(worked_out(alloc, plan, certificate, classes)?))
}
