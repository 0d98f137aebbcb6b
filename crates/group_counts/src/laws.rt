//! Laws of counts, as contracts of functions that do nothing.
ghost use Rattle.std.specs.Prelude.{◌≡◌, ◌++◌, []};
ghost use Rattle.std.specs.Map.{values_of};
ghost use Rattle.std.specs.List.{AllByRecursion};
ghost use Rattle.group_counts.specs.Order.{value_cmp};
ghost use Rattle.group_counts.specs.Tally.{added_all, Few, AreCounts};
ghost use Rattle.group_counts.specs.Entries.{Entries};

/// Counting a list of values from none on gives the counts of the list, and any cutting of the list gives the same.
pub fn counts_are_of_the_list()
    ensures counts { (list : Entries) → AllByRecursion Few (values_of list) → AreCounts value_cmp list (added_all value_cmp [] list) }
    ensures joins { (es front back : Entries) →
        added_all value_cmp es (front ++ back) ≡ added_all value_cmp (added_all value_cmp es front) back }
{}
