//! What an audit finds of a text that is whole.

/// What is found of a text that is whole, by the first that fails: the marks, then a stripe's happenings, then the counts.
#[derive(Clone, Copy, PartialEq, Eq)]
pub enum Finding {
    /// All hold.
    Sound,
    /// The marks are not well formed, or a Begin does not fit the layout, or an End's word is not that of its operation.
    BadMarks,
    /// The layout has no such stripe, or its happenings are not strict for its marks; it is the first such stripe, by group and stripe.
    BadStripe {
        /// The group.
        group: u64,
        /// The stripe within the group.
        stripe: u64,
    },
    /// A count is not that of the marks.
    BadCount,
}
