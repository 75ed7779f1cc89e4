ghost use Rattle.std.specs.Prelude.{◌≡◌, length};
ghost use Rattle.cs_claims.specs.Certificate.{content};
ghost use Rattle.cs_classes.specs.WorkedOut.{classes_by};

use crate::working_out::WorkedOut;
use cs_claims::Certificate;
use cs_windows::MinuteTree;

/// What is judged of a certificate: its own classes and stretches, or those that were worked out.
#[derive(Drop)]
pub struct Claim<'a> {
    pub(crate) certificate: &'a Certificate,
    pub(crate) worked: &'a Option<WorkedOut>,
    ghost kept: { length (classes_by (content certificate.now) worked.now)
        ≡ length (content certificate.now).classes },
}

#[derive(Clone, Copy)]
pub(crate) struct JudgedStretch<'a> {
    /// The classes of its days, eldest first.
    pub(crate) of: &'a [u32],
    /// The windows of its last day, where the certificate lists them.
    pub(crate) tree: Option<&'a MinuteTree>,
}
