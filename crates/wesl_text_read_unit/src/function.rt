//! Reading functions (WGSL, "Functions").
ghost use Rattle.wesl_tree_syntax.specs.Tree.{function, parameters};
ghost use Rattle.wesl_tree_syntax.specs.View.{attributes_tree, function_view, listed, optional as option_view, parameter_view, type_view};
ghost use Rattle.wesl_text_form.specs.Productions.{a_bare_declaration, a_parameter};
ghost use Rattle.wesl_text_tokens.specs.declared.symbol.Symbol.TheVariants as symbols;
ghost use Rattle.wesl_text_read.specs.Leads.{Reads};
ghost use Rattle.wesl_text_read.specs.Levels.{inner};
ghost use Rattle.wesl_text_read_imports.specs.Closed.{closed_at};
ghost use Rattle.wesl_text_read_imports.specs.Nodes.{kind_at};
ghost use Rattle.wesl_text_read_unit.specs.Results.{ReadsPair, result_at};

use wesl_text_read::{Expected, Reader};
use wesl_text_read_ahead::skip_word;
use wesl_text_read_imports::next_item;
use wesl_text_read_statements::read_body;
use wesl_text_tokens::Symbol;
use wesl_tree_syntax::{Attributes, FormalParameter, Function, TypeExpression};

/// `fn name(parameters) -> ty body`
pub fn function(reader: &mut Reader<'_>) -> Function
    ensures { Reads (kind_at reader.old.levels a_bare_declaration function)
        (function_view result) reader.old reader.new }
{
    let attributes = reader.attributes();
    skip_word(reader, "fn");
    let ident = reader.ident();
    reader.skip_sign(Symbol::ParenLeft);
    let parameters = parameters(reader);
    let (return_attributes, return_type) = function_result(reader);
    let body = read_body(reader);
    Function {
        attributes,
        ident,
        parameters,
        return_attributes,
        return_type,
        body,
    }
}

// Parameters with commas between, and the parenthesis that closes them.
fn parameters(reader: &mut Reader<'_>) -> Vec<FormalParameter>
    ensures { Reads (closed_at reader.old.levels parameters a_parameter symbols.ParenRight)
        (listed parameter_view parameters result) reader.old reader.new }
{
    let mut parameters = Vec::new(reader.alloc);
    let mut room = reader.rest.len();
    let mut goes_on = !reader.begins_sign(Symbol::ParenRight);
    'parameters: while goes_on && room > 0 {
        room -= 1;
        let parameter = parameter(reader);
        reader.put(&mut parameters, parameter);
        goes_on = next_item(reader, Symbol::ParenRight);
    }
    reader.wrong_if(goes_on, Expected::Symbol(Symbol::ParenRight));
    reader.skip_sign(Symbol::ParenRight);
    parameters
}

// `name: ty`.
fn parameter(reader: &mut Reader<'_>) -> FormalParameter
    ensures { Reads (inner reader.old.levels a_parameter) (parameter_view result) reader.old reader.new }
{
    let attributes = reader.attributes();
    let ident = reader.ident();
    reader.skip_sign(Symbol::Colon);
    let ty = reader.type_expression();
    FormalParameter {
        attributes,
        ident,
        ty,
    }
}

// `->`, attributes and a type, where a function returns a value.
fn function_result(reader: &mut Reader<'_>) -> (Attributes, Option<TypeExpression>)
    ensures { ReadsPair result_at (attributes_tree result.0) (option_view type_view result.1) reader.old reader.new }
{
    if !reader.begins_sign(Symbol::Arrow) {
        return (Vec::new(reader.alloc), None);
    }
    reader.step();
    let attributes = reader.attributes();
    let ty = reader.type_expression();
    (attributes, Some(ty))
}
