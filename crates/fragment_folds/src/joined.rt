use batch_masks::Total;
use fragment_outcome::Table;
use group_counts::Counts;

/// What a merge has of the answers so far.
#[derive(Drop)]
pub enum Joined {
    /// Their rows, one after the other.
    Rows(Table),
    /// The sum of their counts.
    Count(i128),
    /// The total of their sums that aren't null.
    Sum(Total),
    /// The sum of the counts of each key.
    Group(Counts),
}
