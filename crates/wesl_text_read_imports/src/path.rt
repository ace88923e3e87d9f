//! Reading the paths of imports, in which the name of a package may have slashes.
ghost use Rattle.std.specs.Prelude.{◌≡◌, ◌++◌, ◌∷◌, IfOk, None, Some, map, option_map, string_bytes, true};
ghost use Rattle.wesl_tree_base.specs.Pieces.{cut, slash};
ghost use Rattle.wesl_tree_names.specs.Path.{path_view};
ghost use Rattle.wesl_tree_syntax.specs.Tree.{path};
ghost use Rattle.wesl_tree_syntax.specs.View.{optional as option_view, path_tree};
ghost use Rattle.wesl_text_form.specs.Productions.{a_path, leaf, nothing};
ghost use Rattle.wesl_text_reading.specs.FirstTokens.{begins_path};
ghost use Rattle.wesl_text_reading.specs.Leaves.{are_free, read_leaf, slashed};
ghost use Rattle.wesl_text_read.specs.First.{read_steps};
ghost use Rattle.wesl_text_read.specs.Leads.{Keeps, Reads, ReadsLabel, ReadsText, ReadsTexts, ahead};
ghost use Rattle.wesl_text_read.specs.Parts.{may_at};
ghost use Rattle.wesl_text_read_imports.specs.Slashes.{begins_keyword_path, read_package, slash_first};

use std::alloc::AllocError;
use wesl_text_read::{Expected, Fault, Reader, is_free};
use wesl_text_tokens::{Symbol, Token};
use wesl_tree_base::is_keyword;
use wesl_tree_names::{ModulePath, PathOrigin};

// Whether each of the words between slashes may be used as a name.
fn are_free(words: &str) -> bool
    ensures { result ≡ are_free (cut slash words.now) }
{
    words.split('/').all(|word| is_free(word))
}

// Whether a path begins in which slashes may stand: a word, and behind it `::` or `/`.
fn begins_path(reader: &Reader<'_>) -> bool
    ensures { result ≡ begins_path true (ahead reader.now) }
{
    match reader.rest {
        [first, second, ..] => match (first.token, second.token) {
            (Token::Name(_), Token::Symbol(sign)) => {
                sign == Symbol::ColonColon || sign == Symbol::Slash
            }
            _ => false,
        },
        _ => false,
    }
}

// Whether a path begins with `package`, `self` or `super`, and `::` behind it.
fn begins_keyword_path(reader: &Reader<'_>) -> bool
    ensures { result ≡ begins_keyword_path (ahead reader.now) }
{
    match reader.word_first() {
        Some(word) => reader.begins_path() && is_keyword(word),
        None => false,
    }
}

// The word behind a `/`, where both come first.
fn part_first<'t>(reader: &Reader<'t>) -> Option<&'t str>
    ensures { option_map (λ t. t.now) result ≡ slash_first (ahead reader.now) }
{
    match reader.rest {
        [first, second, ..] => match (first.token, second.token) {
            (Token::Symbol(Symbol::Slash), Token::Name(part)) => Some(part),
            _ => None,
        },
        _ => None,
    }
}

// Adds `/` and a part to a name. Refused for want of memory alone.
fn with_part(name: &mut String, part: &str) -> Result<(), AllocError>
    ensures { IfOk result (λ _. string_bytes name.new ≡ string_bytes name.old ++ slash ∷ part.now) }
{
    name.push('/')?;
    name.push_str(part)?;
    Ok(())
}

// The same, where want of memory is noted.
fn add_part(reader: &mut Reader<'_>, name: &mut String, part: &str)
    ensures added { reader.new.fault ≡ None → string_bytes name.new ≡ string_bytes name.old ++ slash ∷ part.now }
    ensures keeps { Keeps reader.old reader.new }
{
    if with_part(name, part).is_err() {
        reader.note(Fault::Memory);
    }
}

// Words with `/` between, as one text.
fn package_name(reader: &mut Reader<'_>) -> String
    ensures { ReadsText (λ ts. Some (slashed ts)) (string_bytes result) reader.old reader.new }
{
    let Some(word) = reader.word_first() else {
        return String::new(reader.alloc);
    };
    reader.step();
    let mut name = reader.own(word);
    'parts: while let Some(part) = part_first(reader) {
        add_part(reader, &mut name, part);
        reader.step();
        reader.step();
    }
    name
}

/// Names, each with `::` behind it.
pub fn steps(reader: &mut Reader<'_>) -> Vec<String>
    ensures { ReadsTexts read_steps (map string_bytes result.items) reader.old reader.new }
{
    let mut names = Vec::new(reader.alloc);
    'steps: while reader.begins_path() {
        let name = reader.name();
        reader.step();
        reader.put(&mut names, name);
    }
    names
}

// A path that begins with the name of a package.
fn package_path(reader: &mut Reader<'_>) -> ModulePath
    ensures { ReadsLabel read_package (path (path_view result)) reader.old reader.new }
{
    let package = package_name(reader);
    let is_wrong = !are_free(package.as_str());
    reader.wrong_if(is_wrong, Expected::Name);
    reader.skip_sign(Symbol::ColonColon);
    let components = steps(reader);
    ModulePath::new(PathOrigin::Package(package), components)
}

// A path, which begins here.
fn slashed_path(reader: &mut Reader<'_>) -> ModulePath
    requires { begins_path true (ahead reader.old) ≡ true }
    ensures { ReadsLabel (read_leaf (a_path true)) (path (path_view result)) reader.old reader.new }
{
    if begins_keyword_path(reader) {
        reader.path()
    } else {
        package_path(reader)
    }
}

/// A path in which slashes may stand, where one begins.
pub fn optional_package_path(reader: &mut Reader<'_>) -> Option<ModulePath>
    ensures { Reads (may_at reader.old.levels (leaf (a_path true) nothing))
        (option_view path_tree result) reader.old reader.new }
{
    if !begins_path(reader) {
        return None;
    }
    Some(slashed_path(reader))
}
