//! Why bytes can't be read.

use thiserror::Error;

/// What is wrong with the bytes of a root, an entry or a record. A root is tested in this order.
#[derive(Clone, Copy, Debug, PartialEq, Eq, Error)]
pub enum Damaged {
    /// The bytes don't begin as a root does.
    #[error("no root")]
    Magic,
    /// The root has an unknown version.
    #[error("unknown version")]
    Version,
    /// The bytes break a rule of their layout.
    #[error("broken rule")]
    Rule,
}
