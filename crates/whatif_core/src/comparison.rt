//! What comes of a record that is played against another configuration.
use audit_core::CheckFault;
use conn_model::reply::StepFault;

/// What comes of a record that is played against another configuration.
#[derive(Clone, Copy, Debug, PartialEq, Eq)]
pub enum Comparison {
    /// The whole record was compared, and so often anything differs: a decision, or what comes of a connection whose
    /// server is out of reach.
    Compared(u64),
    /// The record is wrong, or its configuration is refused. The line of this fault was written,
    /// and nothing else.
    Wrong(CheckFault),
    /// The other configuration does not come into force in that of the record: it is refused, or binds otherwise.
    /// Nothing was written.
    Refused(StepFault),
}
