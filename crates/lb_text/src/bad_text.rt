//! Where a text is no list and no number.

/// A text is misspelled (docs/rules/history-text.md).
#[derive(Clone, Copy, Debug, PartialEq, Eq)]
pub struct BadText {
    /// The first byte that cannot stand where it does, counted from 0; the length of the text where
    /// the text ends too early.
    pub at: usize,
}
