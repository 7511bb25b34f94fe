//! How far a session is.

/// Whether its head is over.
#[derive(Clone, Copy, Debug, PartialEq, Eq)]
pub enum Phase {
    /// Lines of the head are heard. The first command ends it.
    InHead,
    /// They say what `restore` alone brings to life. No other command may come.
    Restoring,
    /// Commands are heard.
    Begun,
}
