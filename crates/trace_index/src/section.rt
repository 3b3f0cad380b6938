//! Sections of locks.

/// A section of a lock: its acquire, and its release, if it ends.
#[derive(Clone, Copy, Debug, PartialEq, Eq)]
pub struct Section {
    /// The place of the acquire.
    pub acquire: u32,
    /// The place of the release. There is none exactly where the section does not end.
    pub release: Option<u32>,
}
