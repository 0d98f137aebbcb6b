//! Laws of values and their flags, as contracts of functions that do nothing.

ghost use Rattle.std.specs.Prelude.{◌≡◌, ◌++◌, ℕ, Bool, List, length, sum};
ghost use Rattle.orc_values.specs.Woven.{present_count, woven};
ghost use Rattle.orc_values.specs.Texts.{texts_from, slices, running_ends};

/// Two batches are the batch of the joined lists.
pub fn batches_join<T>()
    ensures dense { (before after : List Bool) (front back : List T) → length front ≡ present_count before →
        woven (before ++ after) (front ++ back) ≡ woven before front ++ woven after back }
    ensures texts { (lens more front back : List ℕ) → length front ≡ sum lens →
        slices 0 (lens ++ more) (front ++ back) ≡ slices 0 lens front ++ slices 0 more back }
{}

/// Texts that are cut by their lengths are the texts of the ends that the lengths make.
pub fn lengths_make_ends()
    ensures { (at : ℕ) (lens bytes : List ℕ) → slices at lens bytes ≡ texts_from at (running_ends at lens) bytes }
{}
