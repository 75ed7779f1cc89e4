ghost use Rattle.std.specs.Prelude.{◌≡◌, IfOk, IfSome};
ghost use Rattle.cs_claims.specs.Certificate.{content};

use cs_certify::{Bounds, compact_certificate, least_bounds};
use cs_claims::Certificate;
use cs_plan::Plan;
use cs_profile::Facts;
use std::alloc::{AllocError, Global};

/// Makes certificates and counterexamples for a plan, from what it reads off the plan once.
#[derive(Drop)]
pub struct Maker<'a> {
    pub(crate) plan: &'a Plan,
    pub(crate) facts: Facts,
    /// The least bounds. None if nothing bounds how long jobs wait.
    pub(crate) bounds: Option<Bounds>,
}

impl<'a> Maker<'a> {
    /// Returns the maker of a plan. The only error is out of memory.
    pub fn of(alloc: Global, plan: &'a Plan) -> Result<Maker<'a>, AllocError> {
        let facts = Facts::of(alloc, plan)?;
        let bounds = least_bounds(alloc, plan, &facts)?;
        Ok(Maker {
            plan,
            facts,
            bounds,
        })
    }

    /// Returns the compact certificate of the least bounds, whether or not its windows break a
    /// rule: the caller has it checked. None if there are no bounds, or no certificate can say
    /// them. The only error is out of memory.
    pub fn compact(&self, alloc: Global) -> Result<Option<Certificate>, AllocError>
        ensures { IfOk result (λ made.
            IfSome made (λ certificate. (content certificate).version ≡ 3)) }
    {
        let Some(bounds) = &self.bounds else {
            return Ok(None);
        };
        match compact_certificate(alloc, &bounds.classing, bounds.reaches.as_slice())? {
            Ok(certificate) => Ok(Some(certificate)),
            Err(_) => Ok(None),
        }
    }
}
