//! The texts of paths (WESL, "Imports").
ghost use Rattle.std.specs.Prelude.{◌≡◌, IfOk, IfErr, string_bytes, option_map, true, Some};
ghost use Rattle.wesl_tree_base.specs.Borrowed.{texts};
ghost use Rattle.wesl_tree_base.specs.Pieces.{joined};
ghost use Rattle.wesl_tree_names.specs.declared.errors.Error as error;
ghost use Rattle.wesl_tree_names.specs.Path.{path_view, origin_view};
ghost use Rattle.wesl_tree_names.specs.PathText.{parse, to_text, are_components, is_component, path_of_pieces, path_with, origin_pieces};
ghost use Rattle.wesl_tree_names.specs.PathForm.{is_written};

use crate::errors::Error;
use crate::path::{ModulePath, PathOrigin};
use std::alloc::{AllocError, Global};
use std::fmt;
use wesl_tree_base::{
    copied, has_slash, is_keyword, is_package_name, leading_supers, pieces_of, relative_text,
    write_relative,
};

fn is_component(piece: &str) -> bool
    ensures { result ≡ is_component piece.now }
{
    !has_slash(piece) && !is_keyword(piece)
}

fn are_components(pieces: &[&str]) -> bool
    ensures { result ≡ are_components (texts pieces.now) }
{
    pieces.iter().all(|piece| is_component(piece))
}

/// The path of the origin, where the pieces are components.
fn path_with(
    alloc: Global,
    origin: PathOrigin,
    pieces: &[&str],
) -> Result<Option<ModulePath>, AllocError>
    ensures { IfOk result (λ found. option_map path_view found ≡ path_with (origin_view origin) (texts pieces.now)) }
{
    if !are_components(pieces) {
        return Ok(None);
    }
    let components = copied(alloc, pieces)?;
    Ok(Some(ModulePath::new(origin, components)))
}

/// The path that the pieces say, if they say one.
fn path_of_pieces(alloc: Global, pieces: &[&str]) -> Result<Option<ModulePath>, AllocError>
    ensures { IfOk result (λ found. option_map path_view found ≡ path_of_pieces (texts pieces.now)) }
{
    let up = leading_supers(pieces);
    if up > 0 {
        return path_with(alloc, PathOrigin::Relative(up), &pieces[up..]);
    }
    let Some((first, components)) = pieces.split_first() else {
        return Ok(None);
    };
    if *first == "package" {
        return path_with(alloc, PathOrigin::Absolute, components);
    }
    if *first == "self" {
        return path_with(alloc, PathOrigin::Relative(0), components);
    }
    if !is_package_name(first) {
        return Ok(None);
    }
    let name = String::from_str(alloc, first)?;
    path_with(alloc, PathOrigin::Package(name), components)
}

fn origin_text(alloc: Global, origin: &PathOrigin) -> Result<String, AllocError>
    ensures { IfOk result (λ text. string_bytes text ≡ joined (origin_pieces (origin_view origin.now))) }
{
    match origin {
        PathOrigin::Absolute => String::from_str(alloc, "package"),
        PathOrigin::Relative(up) => relative_text(alloc, *up),
        PathOrigin::Package(name) => String::from_str(alloc, name.as_str()),
    }
}

impl ModulePath {
    /// The path that a text says, or `None` where it says none.
    ///
    /// A path is an origin and components, with `::` between them. A first piece `package` or `self`, or a
    /// run of `super`, is the origin; any other first piece is the name of a package. No piece is empty or
    /// holds a colon; a component holds no slash and is not `package`, `self` or `super`; the name of a
    /// package is nonempty names joined by slashes. Refused for want of memory alone.
    pub fn parse(alloc: Global, text: &str) -> Result<Option<ModulePath>, Error>
        ensures parsed { IfOk result (λ found. option_map path_view found ≡ parse text.now) }
        ensures refused { IfErr result (λ e. e ≡ error.Memory) }
    {
        let Some(pieces) = pieces_of(alloc, text)? else {
            return Ok(None);
        };
        Ok(path_of_pieces(alloc, &pieces)?)
    }

    /// The text of the path: what its origin is written as, and its components, with `::` between them.
    ///
    /// The path that a text says has that text, and a path whose parts are what a text can have there is
    /// the one that its text says. Refused for want of memory alone.
    pub fn to_text(&self, alloc: Global) -> Result<String, Error>
        ensures written { IfOk result (λ text. string_bytes text ≡ to_text (path_view self.now)) }
        ensures read_back { IfOk result (λ text. is_written (path_view self.now) ≡ true → parse (string_bytes text) ≡ Some (path_view self.now)) }
        ensures refused { IfErr result (λ e. e ≡ error.Memory) }
    {
        let mut text = origin_text(alloc, &self.origin)?;
        for component in &self.components {
            text.push_str("::")?;
            text.push_str(component.as_str())?;
        }
        Ok(text)
    }
}

impl fmt::Display for PathOrigin {
    ghost output = { λ origin. Some (joined (origin_pieces (origin_view origin))) };

    fn fmt<W: fmt::Write>(&self, f: &mut fmt::Formatter<W>) -> fmt::Result {
        match self {
            PathOrigin::Absolute => f.write_str("package"),
            PathOrigin::Relative(up) => write_relative(*up, f),
            PathOrigin::Package(name) => f.write_str(name.as_str()),
        }
    }
}

/// What is printed is the text of the path.
impl fmt::Display for ModulePath {
    ghost output = { λ path. Some (to_text (path_view path)) };

    fn fmt<W: fmt::Write>(&self, f: &mut fmt::Formatter<W>) -> fmt::Result {
        self.origin.fmt(f)?;
        for component in &self.components {
            f.write_str("::")?;
            f.write_str(component.as_str())?;
        }
        Ok(())
    }
}
