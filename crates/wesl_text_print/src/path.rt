//! Printing paths (WESL, "Imports").
ghost use Rattle.std.specs.Prelude.{[], ◌∷◌, Some, false, map, string_bytes};
ghost use Rattle.wesl_tree_base.specs.Pieces.{supers};
ghost use Rattle.wesl_text_form.specs.Spelling.{leaf_slots, stepped};
ghost use Rattle.wesl_text_form.specs.Productions.{a_path, steps as some_steps};
ghost use Rattle.wesl_text_print.specs.Printing.{Prints, beginning_slots};
ghost use Rattle.wesl_tree_names.specs.Path.{from_package, origin_view, path_view, relative};
ghost use Rattle.wesl_tree_syntax.specs.Tree.{end, path as path_label, texts};

use crate::sink::TokenSink;
use wesl_text_tokens::Symbol;
use wesl_tree_names::{ModulePath, PathOrigin};

/// Prints a path before a name, with `::` behind each of its names.
pub(crate) fn print_path<S: TokenSink>(out: &mut S, path: &ModulePath)
    ensures { Prints S.after out.old out.new (leaf_slots (a_path false) (path_label (path_view path.now)) end) }
{
    print_origin(out, &path.origin);
    print_steps(out, &path.components);
}

// Prints where a path begins.
fn print_origin<S: TokenSink>(out: &mut S, origin: &PathOrigin)
    ensures { Prints S.after out.old out.new (beginning_slots (origin_view origin.now)) }
{
    match origin {
        PathOrigin::Absolute => print_step(out, "package"),
        PathOrigin::Relative(up) => print_relative(out, *up),
        PathOrigin::Package(name) => print_package(out, name.as_str()),
    }
}

/// Prints a word with `::` behind it.
pub fn print_step<S: TokenSink>(out: &mut S, word: &str)
    ensures { Prints S.after out.old out.new (Some (stepped (word.now ∷ []))) }
{
    out.keyword(word);
    out.symbol(Symbol::ColonColon);
}

/// Prints `self`, or `super` for each module above.
pub fn print_relative<S: TokenSink>(out: &mut S, up: usize)
    ensures { Prints S.after out.old out.new (beginning_slots (relative up)) }
{
    if up == 0 {
        print_step(out, "self");
    } else {
        print_supers(out, up);
    }
}

// Prints `super` so many times.
fn print_supers<S: TokenSink>(out: &mut S, up: usize)
    ensures { Prints S.after out.old out.new (Some (stepped (supers up))) }
{
    for _done in 0..up {
        print_step(out, "super");
    }
}

// Prints the name of a package with `::` behind it.
fn print_package<S: TokenSink>(out: &mut S, name: &str)
    ensures { Prints S.after out.old out.new (beginning_slots (from_package name.now)) }
{
    out.name(name);
    out.symbol(Symbol::ColonColon);
}

/// Prints names, each with `::` behind it.
pub fn print_steps<S: TokenSink>(out: &mut S, steps: &Vec<String>)
    ensures { Prints S.after out.old out.new (leaf_slots some_steps (texts (map string_bytes steps.now.items)) end) }
{
    for step in steps {
        out.name(step.as_str());
        out.symbol(Symbol::ColonColon);
    }
}
