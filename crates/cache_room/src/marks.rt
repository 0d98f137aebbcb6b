// Which of some headers were tried.
ghost use Rattle.std.specs.Prelude.{◌≡◌, ◌<◌, length, replicate, slice_index_or, false};

/// Whether a header is marked.
pub(crate) fn is_marked(marks: &[bool], header: usize) -> bool
    requires { header < length marks.now }
    ensures { result ≡ slice_index_or marks.now header false }
{
    marks[header]
}

/// Takes all marks away.
pub(crate) fn unmark_all(marks: &mut [bool])
    ensures { marks.new ≡ replicate (length marks.old) false }
{
    marks.fill(false);
}
