// Pairs: the questions that are answered.
use numbers::term::Term;

// A set of terms and a right side: every thing that carries the left carries the right, a term, or `None` for the
// bottom that no thing carries.
#[derive(Clone, Copy)]
pub struct Pair<S> {
    pub left: S,
    pub right: Option<Term>,
}
