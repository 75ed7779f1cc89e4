use cs_civil::Bytes;

/// The texts from which a plan was read.
#[derive(Drop)]
pub(crate) struct Source {
    /// The crontab.
    pub(crate) table: Bytes,
    pub(crate) declarations: Bytes,
}
