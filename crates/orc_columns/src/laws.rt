//! Laws of columns, as contracts of functions that do nothing.
ghost use Rattle.orc_columns.specs.Laws.{NeverBoth, HasValuesOrAFault, IsOneList, IsOneFault, GivesTheColumn};
ghost use Rattle.orc_columns.specs.Laws.{JoinInTurn, StopInTurn, NeverBack, LeaveAColumn, LeaveAStream};

use outside::Feed;

/// A column of so many rows has one list of values, or is refused by one condition, and never both: and where it has
/// values in some rows, it isn't refused in fewer.
pub fn a_column_is_one()
    ensures never_both { NeverBoth }
    ensures one_list { IsOneList }
    ensures one_fault { IsOneFault }
{
    orc_rle::laws::runs_are_read();
    orc_rle2::laws::runs_are_read();
}

/// The rows that a reader has given, batch by batch, are the column's first: so batches join to the column.
pub fn a_reader_gives_the_column()
    ensures { GivesTheColumn }
{}

/// Every column has values in so many rows, or a condition refuses it: with `a_column_is_one`, exactly one of the two.
pub fn a_column_has_values_or_a_fault()
    ensures { HasValuesOrAFault }
{
    orc_rle::laws::every_stream_is_decided();
    orc_rle2::laws::every_stream_is_decided();
}

/// Takes of some streams leave every other stream, where it is told, as it was: so a call on one column leaves the columns
/// that have no stream in common with it, and those streams of its own column that its spelling doesn't use.
pub fn takes_leave_other_streams<F: Feed>()
    ensures column { LeaveAColumn F.rest F.fed }
    ensures stream { LeaveAStream F.rest F.fed }
{}

/// Takes of some streams in turn, and then of others, are in turn of all of them, also where the walk stops before the
/// others; and of two streams the first isn't taken from again, once the second was.
pub fn takes_in_turn_join()
    ensures join { JoinInTurn }
    ensures stop { StopInTurn }
    ensures never_back { NeverBack }
{}
