//! The text that a play writes.

/// The text that a play writes for each command that is done. It writes nothing for other lines, except that a
/// history also gets the line that tells the version.
#[derive(Clone, Copy, Debug, PartialEq, Eq)]
pub enum Style {
    /// The line of its reply.
    Replies,
    /// The line of its entry: the command and its reply.
    Entries,
    /// Nothing.
    Nothing,
}
