//! Reading units.
ghost use Rattle.std.specs.Prelude.{◌≡◌, [], IfErr, IfOk, None, Some, false, true};
ghost use Rattle.wesl_tree_interner.specs.Different.{AreDifferent};
ghost use Rattle.wesl_tree_interner.specs.Interned.{texts_of};
ghost use Rattle.wesl_tree_syntax.specs.Unit.{spelled, unit_below};
ghost use Rattle.wesl_tree_syntax.specs.View.{declarations_tree, directives_tree, imports_tree};
ghost use Rattle.wesl_tree.specs.Parts.{parts_view};
ghost use Rattle.wesl_tree.specs.Translation.{unit_view};
ghost use Rattle.wesl_text_form.specs.Productions.{a_directive, an_import, nothing};
ghost use Rattle.wesl_text_form.specs.Spelling.{unit_row};
ghost use Rattle.wesl_text_reading.specs.FirstTokens.{begins_sort};
ghost use Rattle.wesl_text_reading.specs.Reading.{reading_of_unit};
ghost use Rattle.wesl_text_read.specs.Leads.{ahead, is_memory};
ghost use Rattle.wesl_text_read_ahead.specs.Ahead.{tokens_of};
ghost use Rattle.wesl_text_read_unit.specs.Wholes.{ReadsPart, TellsBehind, declarations_row, directives_row, most_levels};

use crate::declaration::declaration;
use crate::table::table;
use std::alloc::Global;
use wesl_text_read::{Expected, Fault, Reader};
use wesl_text_read_ahead::{behind_attributes, word_begins};
use wesl_text_read_imports::{begins_directive, read_directive, read_import};
use wesl_text_tokens::PlacedToken;
use wesl_tree::TranslationUnit;
use wesl_tree_interner::Interner;
use wesl_tree_syntax::{GlobalDeclarationNode, GlobalDirectiveNode, ImportStatementNode};

/// How many levels of nodes a text may nest: expressions, bodies, clauses of a `switch`, and entries of imports.
pub const MOST_LEVELS: usize = 127;

/// The unit that the tokens of a text say, which ends at `end`.
///
/// Each distinct name gets one number. A node has the span from its first token to its last.
///
/// # Errors
///
/// Tokens that say no unit of at most `MOST_LEVELS` levels are refused with a fault of the text. Otherwise they are
/// refused for want of memory alone.
pub fn read_unit<'t>(
    alloc: Global,
    tokens: &'t [PlacedToken<'t>],
    end: u32,
) -> Result<TranslationUnit, Fault<'t>>
    ensures unit { IfOk result
        (λ u. reading_of_unit most_levels (tokens_of tokens.now) ≡ Some (spelled (unit_view u))) }
    ensures distinct { IfOk result (λ u. AreDifferent (unit_view u).names) }
    ensures none { IfErr result
        (λ f. is_memory f ≡ false → reading_of_unit most_levels (tokens_of tokens.now) ≡ None) }
{
    let mut reader = Reader::new(alloc, tokens, end, MOST_LEVELS);
    let imports = imports(&mut reader);
    let directives = directives(&mut reader);
    let declarations = declarations(&mut reader);
    match reader.fault {
        Some(fault) => Err(fault),
        None => unit_of(alloc, reader.names, imports, directives, declarations),
    }
}

// The unit of its parts, whose identifiers have names. Refused for want of memory alone.
fn unit_of<'t>(
    alloc: Global,
    names: Interner,
    imports: Vec<ImportStatementNode>,
    directives: Vec<GlobalDirectiveNode>,
    declarations: Vec<GlobalDeclarationNode>,
) -> Result<TranslationUnit, Fault<'t>>
    requires { unit_below (parts_view (texts_of names) imports directives declarations) ≡ true }
    ensures unit { IfOk result (λ u. unit_view u ≡ parts_view (texts_of names) imports directives declarations) }
    ensures refused { IfErr result (λ f. is_memory f ≡ true) }
{
    let Ok(names) = table(alloc, names) else {
        return Err(Fault::Memory);
    };
    match TranslationUnit::from_parts(names, imports, directives, declarations) {
        Some(unit) => Ok(unit),
        None => unreachable!(),
    }
}

// Whether an import begins, behind attributes.
fn begins_import(reader: &mut Reader<'_>) -> bool
    ensures { TellsBehind (begins_sort an_import) result reader.old reader.new }
{
    word_begins(behind_attributes(reader), "import")
}

// The imports.
fn imports(reader: &mut Reader<'_>) -> Vec<ImportStatementNode>
    ensures { ReadsPart unit_row directives_row (imports_tree result) reader.old reader.new }
{
    let mut imports = Vec::new(reader.alloc);
    let mut goes_on = begins_import(reader);
    let mut room = reader.rest.len();
    'imports: while goes_on && room > 0 {
        room -= 1;
        let import = read_import(reader);
        reader.put(&mut imports, import);
        goes_on = begins_import(reader);
    }
    reader.wrong_if(goes_on, Expected::Declaration);
    imports
}

// Whether a directive begins, behind attributes.
fn starts_directive(reader: &mut Reader<'_>) -> bool
    ensures { TellsBehind (begins_sort a_directive) result reader.old reader.new }
{
    begins_directive(behind_attributes(reader))
}

// The directives.
fn directives(reader: &mut Reader<'_>) -> Vec<GlobalDirectiveNode>
    ensures { ReadsPart directives_row declarations_row (directives_tree result) reader.old reader.new }
{
    let mut directives = Vec::new(reader.alloc);
    let mut goes_on = starts_directive(reader);
    let mut room = reader.rest.len();
    'directives: while goes_on && room > 0 {
        room -= 1;
        let directive = read_directive(reader);
        reader.put(&mut directives, directive);
        goes_on = starts_directive(reader);
    }
    reader.wrong_if(goes_on, Expected::Declaration);
    directives
}

// The declarations, which are all that is left.
fn declarations(reader: &mut Reader<'_>) -> Vec<GlobalDeclarationNode>
    ensures declarations { ReadsPart declarations_row nothing (declarations_tree result) reader.old reader.new }
    ensures all { ahead reader.new ≡ [] }
{
    let mut declarations = Vec::new(reader.alloc);
    let mut goes_on = !reader.rest.is_empty();
    let mut room = reader.rest.len();
    'declarations: while goes_on && room > 0 {
        room -= 1;
        let declaration = declaration(reader);
        reader.put(&mut declarations, declaration);
        goes_on = !reader.rest.is_empty();
    }
    reader.wrong_if(goes_on, Expected::Declaration);
    declarations
}
