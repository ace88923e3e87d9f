//! Laws of what one table answers.
ghost use Rattle.wesl_link_symbols.specs.Laws.{AnswersOnce, HasAnswers, AnswersPlainly};

/// A table answers a look-up one way at most.
pub fn law_of_answers<P, N>()
    ensures { AnswersOnce P N }
{}

/// A table answers each look-up, where equality of paths and of names is decided.
pub fn law_of_all<P, N>()
    ensures { HasAnswers P N }
{}

/// A look-up of a name whose binders have one target and stand everywhere, and whose imports ask from one place and have one
/// order, is answered as by the plain relation, in which conditions play no part.
pub fn law_of_one_target<P, N>()
    ensures { AnswersPlainly P N }
{}
