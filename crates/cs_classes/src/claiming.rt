ghost use Rattle.std.specs.Prelude.{◌≡◌, ◌<◌, Some, length, slice_get};
ghost use Rattle.cs_claims.specs.Certificate.{content};
ghost use Rattle.cs_daytree.specs.Tree.{tree_of};
ghost use Rattle.cs_classes.specs.Claim.{HasClassOfEach};
ghost use Rattle.cs_classes.specs.Said.{said};
ghost use Rattle.cs_classes.specs.StandsFor.{claimed};
ghost use Rattle.cs_classes.specs.Used.{AreInside, shown};
ghost use Rattle.cs_classes.specs.WorkedOut.{IsWorkedOut};

use crate::claim::{Claim, JudgedStretch};
use crate::working_out::WorkedOut;
use cs_claims::{Certificate, Class};
use cs_daytree::DayTree;
use cs_plan::Plan;
use cs_windows::JobReach;

/// Returns what is judged of a certificate under a plan, given what was worked out of it.
pub fn claim_by<'a>(
    plan: &Plan,
    certificate: &'a Certificate,
    worked: &'a Option<WorkedOut>,
) -> Claim<'a>
    requires { IsWorkedOut plan.now (content certificate.now) worked.now }
    ensures { said result ≡ claimed plan.now (content certificate.now) }
{
    Claim {
        certificate,
        worked,
    }
}

impl<'a> Claim<'a> {
    /// Returns the classes of days, numbered from 0.
    pub fn classes(&self) -> &'a [Class]
        ensures { result.now ≡ (said self.now).classes }
    {
        match self.worked {
            Some(worked) => worked.classes.as_slice(),
            None => self.certificate.classes(),
        }
    }

    /// Returns the class of each kind of day: one of [`classes`](Claim::classes).
    pub fn kinds(&self) -> &'a DayTree
        ensures value { tree_of result.now ≡ (said self.now).kinds }
        ensures there { HasClassOfEach (said self.now) }
    {
        self.certificate.kinds()
    }

    /// Returns the reaches, jobs strictly rising.
    pub fn reach(&self) -> &'a [JobReach]
        ensures { result.now ≡ (said self.now).reach }
    {
        self.certificate.reach()
    }

    pub(crate) fn count(&self) -> usize
        ensures { result ≡ length (said self.now).stretches }
    {
        match self.worked {
            Some(worked) => worked.stretches.len(),
            None => self.certificate.stretches().len(),
        }
    }

    pub(crate) fn stretch(&self, number: usize) -> JudgedStretch<'a>
        requires { number < length (said self.now).stretches }
        ensures value { slice_get (said self.now).stretches number ≡ Some (shown result) }
        ensures splits { AreInside (shown result).tree }
    {
        match self.worked {
            Some(worked) => JudgedStretch {
                of: worked.stretches[number].as_slice(),
                tree: None,
            },
            None => {
                let stretch = &self.certificate.stretches()[number];
                JudgedStretch {
                    of: stretch.of.as_slice(),
                    tree: Some(&stretch.tree),
                }
            }
        }
    }
}
