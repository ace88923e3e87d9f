//! Laws of the definitions.
ghost use Rattle.wesl_scope_words.specs.Free.{EachIsSpoken, NoneIsFree};
ghost use Rattle.wesl_scope_words.specs.Innermost.{EachInScopeIsTold, EachIsInnermost};

/// There are no clashes exactly where no word means a declaration of the module; the words that are told of a declared name
/// are said of it; a word is told exactly where a declaration in scope is spelled so, and it is read as one of the innermost
/// block that holds such.
pub fn law_of_word_clashes()
    ensures none { NoneIsFree }
    ensures each { EachIsSpoken }
    ensures in_scope { EachInScopeIsTold }
    ensures innermost { EachIsInnermost }
{}
