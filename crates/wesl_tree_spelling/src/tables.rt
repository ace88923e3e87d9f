//! The tables by which two trees are compared, and what has no parts: names, texts and paths.
ghost use Rattle.std.specs.Prelude.{◌≡◌, [], get_or, bytes_eq};
ghost use Rattle.wesl_tree_names.specs.Path.{same_origin, origin_view};
ghost use Rattle.wesl_tree_spelling.specs.Same.{same_texts as texts_agree, same_span as spans_agree};
ghost use Rattle.wesl_tree_syntax.specs.View.{boxed_path, optional, path_tree, texts_of};

use wesl_tree_names::{Ident, ModulePath, Names, PathOrigin, Span};

/// By what two trees are compared: by the names of their identifiers, or by the places of their nodes.
#[derive(Clone, Copy)]
pub struct Tables<'a> {
    /// The names of the identifiers of the left tree.
    pub left: &'a Names,
    /// The names of the identifiers of the right tree.
    pub right: &'a Names,
    /// Whether the spans of nodes count, and what identifiers are called does not.
    pub places: bool,
}

/// The name of an identifier, and the empty text where it has none.
fn name_of(names: &Names, ident: Ident) -> &str
    ensures { result.now ≡ get_or names.now ident.0 [] }
{
    if ident.0 < names.len() {
        names.name(ident)
    } else {
        ""
    }
}

/// Whether the same texts stand in the same order.
#[tactic(auto, using(crate::proofs::Pairs::text_steps))]
pub(crate) fn same_texts(left: &Vec<String>, right: &Vec<String>) -> bool
    ensures { result ≡ texts_agree (texts_of left.now) (texts_of right.now) }
{
    if left.len() != right.len() {
        return false;
    }
    for i in 0..left.len() {
        if left[i] != right[i] {
            return false;
        }
    }
    true
}

fn same_origin(left: &PathOrigin, right: &PathOrigin) -> bool
    ensures { result ≡ same_origin (origin_view left.now) (origin_view right.now) }
{
    match (left, right) {
        (PathOrigin::Absolute, PathOrigin::Absolute) => true,
        (PathOrigin::Relative(left), PathOrigin::Relative(right)) => *left == *right,
        (PathOrigin::Package(left), PathOrigin::Package(right)) => *left == *right,
        _ => false,
    }
}

impl Tables<'_> {
    ghost use Rattle.wesl_tree_spelling.specs.Tables.{naming, same_in};

    pub(crate) fn same_ident(&self, left: Ident, right: Ident) -> bool
        ensures { result ≡ bytes_eq (naming self.now.places self.now.left.now left.0) (naming self.now.places self.now.right.now right.0) }
    {
        self.places || name_of(self.left, left) == name_of(self.right, right)
    }

    pub(crate) fn same_span(&self, left: Span, right: Span) -> bool
        ensures { result ≡ spans_agree self.now.places left.start left.end right.start right.end }
    {
        !self.places || (left.start == right.start && left.end == right.end)
    }

    #[tactic(auto, using(crate::proofs::Bools::steps))]
    pub(crate) fn same_path(&self, left: &Option<ModulePath>, right: &Option<ModulePath>) -> bool
        ensures { result ≡ same_in self.now (optional path_tree left.now) (optional path_tree right.now) }
    {
        match (left, right) {
            (None, None) => true,
            (Some(left), Some(right)) => {
                same_origin(&left.origin, &right.origin)
                    && same_texts(&left.components, &right.components)
            }
            _ => false,
        }
    }

    #[tactic(auto, using(crate::proofs::Bools::steps))]
    pub(crate) fn same_boxed_path(
        &self,
        left: &Option<Box<ModulePath>>,
        right: &Option<Box<ModulePath>>,
    ) -> bool
        ensures { result ≡ same_in self.now (optional boxed_path left.now) (optional boxed_path right.now) }
    {
        match (left, right) {
            (None, None) => true,
            (Some(left), Some(right)) => {
                same_origin(&left.origin, &right.origin)
                    && same_texts(&left.components, &right.components)
            }
            _ => false,
        }
    }
}
