use crate::answer::Answer;
use crate::failure::Failure;

/// What becomes of a fragment.
#[derive(Drop)]
pub enum Outcome {
    /// It has an answer.
    Answer(Answer),
    /// It has none.
    Failure(Failure),
}
