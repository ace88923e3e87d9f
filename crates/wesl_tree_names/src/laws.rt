//! Laws of paths, each the contract of a function that does nothing.
ghost use Rattle.wesl_tree_names.specs.PathRows.{JoinRows, ParseRows, OrderRows};
ghost use Rattle.wesl_tree_names.specs.PathForm.{WrittenReadsBack};
ghost use Rattle.wesl_tree_names.specs.PathLaws.{Equality, Order, TotalOrder, RoundTrip};

/// Paths are equal exactly where they say the same.
pub fn law_of_equality()
    ensures { Equality }
{}

/// Paths are ordered by what they say.
pub fn law_of_order()
    ensures by_view { Order }
    ensures total { TotalOrder }
{}

/// The text of a path that a text says is that text, and the paths that have such a text are those whose
/// parts are what a text can have there.
pub fn law_of_texts()
    ensures round_trip { RoundTrip }
    ensures written { WrittenReadsBack }
{}

/// Rows of joins, texts and the order.
pub fn law_of_rows()
    ensures joins { JoinRows }
    ensures texts { ParseRows }
    ensures order { OrderRows }
{}
