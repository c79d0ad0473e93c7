//! What is wrong with a manifest's line or with a header's value, and where.

/// The kinds of faults, of lines and of clauses.
#[derive(Clone, Copy, Debug, PartialEq, Eq)]
pub enum HeaderKind {
    /// A line without a colon.
    NoColon,
    /// A line whose name is no header name.
    BadName,
    /// A line of more than 65,536 bytes.
    LongLine,
    /// A clause outside the grammar.
    BadClause,
    /// A clause with a quoted text that does not end.
    OpenQuote,
    /// A header that is not UTF-8.
    BadUtf8,
}

/// A fault: its kind, and the byte at which the faulty line or clause begins.
#[derive(Clone, Copy, PartialEq, Eq)]
pub struct HeaderFault {
    pub kind: HeaderKind,
    pub at: u64,
}
