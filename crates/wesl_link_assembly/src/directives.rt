//! The directives of a linked unit (WGSL, "Directives").
ghost use Rattle.std.specs.Prelude.{◌≡◌, ◌↔◌, ◌++◌, ◌∷◌, [], IsTrue, IfOk, IfErr, OnOk, length, map, string_bytes};
ghost use Rattle.wesl_tree_names.specs.declared.errors.Error as error;
ghost use Rattle.wesl_tree_syntax.specs.Tree.{tree_below, directive_node};
ghost use Rattle.wesl_tree_syntax.specs.View.{placed, directive_view, texts_of};
ghost use Rattle.wesl_link_assembly.specs.Denotations.{free_name};
ghost use Rattle.wesl_link_assembly.specs.Directives.{AreThinned};
ghost use Rattle.wesl_link_assembly.specs.Thinning.{directive_trees, spelled_directive, words_in};
ghost use Rattle.wesl_link_assembly.specs.Views.{denotation_view};

use crate::denotation::Denotation;
use std::alloc::Global;
use wesl_scope_occurrences::words_of;
use wesl_tree_copies::Copying;
use wesl_tree_names::{Error, Names};
use wesl_tree_spelling::same_directives;
use wesl_tree_syntax::GlobalDirectiveNode;

/// Copies of the directives that stay of those of many modules, and their words, in document order: the names of their
/// identifiers.
#[derive(Drop)]
pub struct Directives {
    pub nodes: Vec<GlobalDirectiveNode>,
    pub words: Vec<String>,
}

/// The words of a directive.
fn words(
    alloc: Global,
    names: &Names,
    directive: &GlobalDirectiveNode,
) -> Result<Vec<String>, Error>
    requires below { IsTrue (tree_below (length names.now) (placed directive_view directive_node directive.now)) }
    ensures words { IfOk result (λ words. texts_of words ≡ words_in names.now directive.now) }
    ensures refused { IfErr result (λ e. e ≡ error.Memory) }
{
    let idents = words_of(alloc, directive)?;
    let mut words = Vec::with_capacity(alloc, idents.len())?;
    for ident in &idents {
        words.push(String::from_str(alloc, names.name(*ident))?)?;
    }
    Ok(words)
}

/// What words stand for: each for itself.
pub fn word_denotations<'a>(
    alloc: Global,
    words: &'a [String],
) -> Result<Vec<Denotation<'a>>, Error>
    ensures words { IfOk result (λ found. map denotation_view found.items ≡ map free_name (map string_bytes words.now)) }
    ensures refused { IfErr result (λ e. e ≡ error.Memory) }
{
    let mut denotations = Vec::with_capacity(alloc, words.len())?;
    for word in words {
        denotations.push(Denotation::Free(word))?;
    }
    Ok(denotations)
}

/// An equal copy of a directive.
fn copied(alloc: Global, directive: &GlobalDirectiveNode) -> Result<GlobalDirectiveNode, Error>
    ensures equal { IfOk result (λ copy. placed directive_view directive_node copy ≡ placed directive_view directive_node directive.now) }
    ensures refused { IfErr result (λ e. e ≡ error.Memory) }
{
    let mut copying = Copying::of(alloc);
    let copy = copying.directive_node(directive);
    copying.end(copy)
}

/// Whether two directives are one as they are spelled.
pub(crate) fn are_equal(
    alloc: Global,
    left_names: &Names,
    left: &GlobalDirectiveNode,
    right_names: &Names,
    right: &GlobalDirectiveNode,
) -> Result<bool, Error>
    ensures equal { IfOk result (λ same. IsTrue same ↔ (spelled_directive left_names.now left.now ≡ spelled_directive right_names.now right.now)) }
    ensures refused { IfErr result (λ e. e ≡ error.Memory) }
{
    let left = vec![in alloc; copied(alloc, left)?]?;
    let right = vec![in alloc; copied(alloc, right)?]?;
    Ok(same_directives(left_names, &left, right_names, &right))
}

impl Directives {
    /// None yet. It takes no memory.
    pub(crate) fn new(alloc: Global) -> Directives
        ensures { AreThinned [] result.nodes (texts_of result.words) }
    {
        Directives {
            nodes: Vec::new(alloc),
            words: Vec::new(alloc),
        }
    }

    /// One more that stays.
    pub(crate) fn push(
        &mut self,
        alloc: Global,
        names: &Names,
        directive: &GlobalDirectiveNode,
    ) -> Result<(), Error>
        requires below { IsTrue (tree_below (length names.now) (placed directive_view directive_node directive.now)) }
        ensures nodes { OnOk result (directive_trees self.new.nodes.items ≡ directive_trees self.old.nodes.items ++ placed directive_view directive_node directive.now ∷ []) }
        ensures words { OnOk result (texts_of self.new.words ≡ texts_of self.old.words ++ words_in names.now directive.now) }
        ensures refused { IfErr result (λ e. e ≡ error.Memory) }
    {
        self.nodes.push(copied(alloc, directive)?)?;
        let mut words = words(alloc, names, directive)?;
        self.words.append(&mut words)?;
        Ok(())
    }
}
