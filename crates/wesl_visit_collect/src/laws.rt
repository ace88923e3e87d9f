//! What nodes of a kind hold, and what is of no kind.
ghost use Rattle.wesl_visit_collect.specs.Held.{AttributesAreFlat, ContentsAreHollow, ExpressionsArePlain, TypesArePlain};
ghost use Rattle.wesl_visit_collect.specs.Variants.{AttributesAreUnpicked, ExpressionsAreUnpicked, GlobalsAreUnpicked, StatementsAreUnpicked};

/// Expressions and types hold no words, no statements and no lists of attributes.
pub fn law_of_expressions()
    ensures expressions { ExpressionsArePlain }
    ensures types { TypesArePlain }
{}

/// Attributes hold no statements and no lists of attributes, and what an import names holds no node of any kind.
pub fn law_of_words()
    ensures attributes { AttributesAreFlat }
    ensures imports { ContentsAreHollow }
{}

/// An expression, a statement, an attribute or a global declaration without its span is of no kind.
pub fn law_of_variants()
    ensures expressions { ExpressionsAreUnpicked }
    ensures statements { StatementsAreUnpicked }
    ensures attributes { AttributesAreUnpicked }
    ensures declarations { GlobalsAreUnpicked }
{}
