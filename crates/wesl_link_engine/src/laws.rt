//! Laws of links.
ghost use Rattle.wesl_link_engine.specs.Laws.{AreExclusive, ReachesAllDeclared};

use wesl_resolve_base::Resolver;

/// Success and refusal exclude each other, where a resolver hands out one unit a path and does not refuse that path too.
pub fn law_of_links<R: Resolver>(resolver: &R)
    ensures { AreExclusive (R.hands resolver.now) (R.refuses resolver.now) }
{}

/// An eager link reaches every symbol that one of its modules declares, so that the linked unit holds them all.
pub fn law_of_eager_links<R: Resolver>(resolver: &R)
    ensures { ReachesAllDeclared (R.hands resolver.now) (R.refuses resolver.now) }
{}
