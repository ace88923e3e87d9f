//! Laws of declarations and of imports, each the contract of a function that does nothing.
ghost use Rattle.wesl_link_tables.specs.Laws.{UsesAreIdentifiers, ImportsAskAsThemselves, PlainNamesHaveOneTarget};

/// Each identifier of a declaration stands once among its uses, in document order.
pub fn law_of_uses()
    ensures { UsesAreIdentifiers }
{}

/// An import that aims at a name of its own module is answered there from the place that it asks from as from the place where
/// it stands (WESL, "Imports" and "ConditionalTranslation"), though of several imports that find alike one asks for all.
pub fn law_of_askers()
    ensures { ImportsAskAsThemselves }
{}

/// A name of a module whose binders have one target, dead ones counted, has one target in the module's table, unless that
/// target is a name of the same module whose binders have several (WESL, "ConditionalTranslation"). By `law_of_one_target` of
/// `wesl_link_symbols` conditions play no part in it then.
pub fn law_of_plain_names()
    ensures { PlainNamesHaveOneTarget }
{}
