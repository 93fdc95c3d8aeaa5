//! How many lines of a kind there may be.

/// `acl` lines of a frontend.
pub const MOST_ACLS: usize = 256;

/// `tcp-request` and `use_backend` lines of a frontend, together.
pub const MOST_RULES: usize = 256;
