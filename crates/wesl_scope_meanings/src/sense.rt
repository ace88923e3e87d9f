//! How identifiers are read, before it is known which names the module declares.
ghost use Rattle.std.specs.Prelude.{◌≡◌, ◌<◌, ◌+◌, ◌^◌};
ghost use Rattle.wesl_scope_occurrences.specs.Views.{here_view, standing_view};
ghost use Rattle.wesl_scope_open.specs.Open.{read_in};
ghost use Rattle.wesl_scope_meanings.specs.Sensed.{reading, sense_by, number_in, path_count};
ghost use Rattle.wesl_scope_meanings.specs.Senses.{sense_view};

use wesl_scope_occurrences::{Here, Standing};
use wesl_tree_names::Ident;

/// How an identifier is read.
#[derive(Clone, Copy)]
pub enum Sense {
    /// as the name of an import or of a global declaration, in the block of this number
    Declares(Ident, usize),
    /// as a name of the block of this number
    OfBlock(Ident, usize),
    /// as a name of the module, if the module declares it, and else of none
    OfModule(Ident),
    /// as a word
    OfNone(Ident),
    /// by its path, the one of this number among those of the module's identifiers
    ByPath(Ident, usize),
}

/// How a reference without a path is read here, where `read` is the block in functions whose declaration of its name is
/// visible.
fn referring(read: Option<usize>, here: &Here, ident: Ident) -> Sense
    ensures { sense_view result ≡ reading ident.0 (read_in (here_view here.now) read) }
{
    match read {
        Some(block) if here.is_local => Sense::OfBlock(ident, block),
        _ => Sense::OfModule(ident),
    }
}

impl Sense {
    /// How an identifier is read that stands so, where `read` is the block in functions whose declaration of its name is
    /// visible, and so many paths were met before.
    pub fn new(
        paths: usize,
        read: Option<usize>,
        here: &Here,
        standing: &Standing<'_>,
        ident: Ident,
    ) -> Sense
        ensures { sense_view result ≡ sense_by paths read (here_view here.now) (standing_view standing.now) ident.0 }
    {
        match standing {
            Standing::ModuleName => Sense::Declares(ident, here.block),
            Standing::Parameter => Sense::OfBlock(ident, here.block),
            Standing::Local { end: _ } => Sense::OfBlock(ident, here.block),
            Standing::Reference(Some(_)) => Sense::ByPath(ident, paths),
            Standing::Reference(None) => referring(read, here, ident),
            Standing::Word => Sense::OfNone(ident),
        }
    }

    /// The identifier that is read so.
    pub fn ident(&self) -> Ident
        ensures { result.0 ≡ number_in (sense_view self.now) }
    {
        match self {
            Sense::Declares(ident, _) => *ident,
            Sense::OfBlock(ident, _) => *ident,
            Sense::OfModule(ident) => *ident,
            Sense::OfNone(ident) => *ident,
            Sense::ByPath(ident, _) => *ident,
        }
    }

    /// How many paths belong to what is read so.
    fn path_count(&self) -> usize
        ensures { result ≡ path_count (sense_view self.now) }
    {
        match self {
            Sense::ByPath(_, _) => 1,
            _ => 0,
        }
    }

    /// How many paths were met with it, where so many were met before: fewer than there can be identifiers.
    pub fn paths_with(&self, paths: usize) -> usize
        ensures { paths < 2 ^ 63 → result ≡ paths + path_count (sense_view self.now) }
    {
        paths.saturating_add(self.path_count())
    }
}
