//! Why stripes have no rows.
use orc_columns::ColumnFault;
use orc_tail::TailFault;

/// Where the rows of a file break: the content's own fault, and neither a failed read nor want of memory.
#[derive(Clone, Copy)]
pub enum RowsFault {
    /// The footer of a stripe is refused.
    BrokenFooter {
        /// The stripe's number, counted from 0.
        stripe: u32,
        /// The first condition that refuses its footer.
        fault: TailFault,
    },
    /// A column of a stripe is refused.
    BrokenColumn {
        /// The stripe's number, counted from 0.
        stripe: u32,
        /// The number of the column's type.
        column: u32,
        /// The first condition that refuses the column.
        fault: ColumnFault,
    },
}
