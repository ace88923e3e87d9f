//! Reading the selectors of a clause of `switch`.
ghost use Rattle.std.specs.Prelude.{◌≡◌, Some, codes, true};
ghost use Rattle.wesl_text_tokens.specs.Tokens.{symbol};
ghost use Rattle.wesl_text_tokens.specs.declared.symbol.Symbol.TheVariants as symbols;
ghost use Rattle.wesl_text_form.specs.Slots.{behind_if_there};
ghost use Rattle.wesl_tree_syntax.specs.Tree.{list};
ghost use Rattle.wesl_tree_syntax.specs.View.{listed, selector_view};
ghost use Rattle.wesl_text_form.specs.Productions.{a_selector};
ghost use Rattle.wesl_text_reading.specs.FirstTokens.{begins_word};
ghost use Rattle.wesl_text_read.specs.Leads.{Reads, Skips, ahead};
ghost use Rattle.wesl_text_read.specs.Levels.{inner};
ghost use Rattle.wesl_text_read.specs.Parts.{commas_at};
ghost use Rattle.wesl_text_read_statements.specs.Statements.{selectors_at, some_selectors_at};

use wesl_text_read::{Expected, Reader, Within};
use wesl_text_read_ahead::{begins_word, skip_word};
use wesl_text_tokens::Symbol;
use wesl_tree_syntax::CaseSelector;

/// The selectors of a clause, of which there is one at least.
pub fn some_selectors(reader: &mut Reader<'_>) -> Vec<CaseSelector>
    ensures { Reads (some_selectors_at reader.old.levels) (listed selector_view list result) reader.old reader.new }
{
    let selectors = selectors(reader);
    reader.wrong_if(selectors.is_empty(), Expected::Selector);
    selectors
}

// `default` alone, or the selectors behind `case`.
fn selectors(reader: &mut Reader<'_>) -> Vec<CaseSelector>
    ensures { Reads (selectors_at reader.old.levels) (listed selector_view list result) reader.old reader.new }
{
    if begins_word(reader, "default") {
        return lone_default(reader);
    }
    skip_word(reader, "case");
    case_selectors(reader)
}

// `default` alone, which comes first.
fn lone_default(reader: &mut Reader<'_>) -> Vec<CaseSelector>
    requires { begins_word (codes "default") (ahead reader.old) ≡ true }
    ensures { Reads (selectors_at reader.old.levels) (listed selector_view list result) reader.old reader.new }
{
    reader.step();
    let mut selectors = Vec::new(reader.alloc);
    reader.put(&mut selectors, CaseSelector::Default);
    selectors
}

// Selectors with commas between.
fn case_selectors(reader: &mut Reader<'_>) -> Vec<CaseSelector>
    ensures { Reads (commas_at reader.old.levels list a_selector) (listed selector_view list result) reader.old reader.new }
{
    let mut selectors = Vec::new(reader.alloc);
    let mut room = reader.rest.len();
    let mut goes_on = reader.begins_expression();
    'selectors: while goes_on && room > 0 {
        room -= 1;
        let selector = selector(reader);
        reader.put(&mut selectors, selector);
        goes_on = reader.next_expression();
    }
    reader.wrong_if(goes_on, Expected::CloseList);
    selectors
}

// One selector.
fn selector(reader: &mut Reader<'_>) -> CaseSelector
    ensures { Reads (inner reader.old.levels a_selector) (selector_view result) reader.old reader.new }
{
    if begins_word(reader, "default") {
        reader.step();
        return CaseSelector::Default;
    }
    CaseSelector::Expression(reader.expression(Within::Anything))
}

/// Goes on behind a colon, where one comes first.
pub fn skip_colon(reader: &mut Reader<'_>)
    ensures { Skips (λ ts. Some (behind_if_there (symbol symbols.Colon) ts)) reader.old reader.new }
{
    if reader.begins_sign(Symbol::Colon) {
        reader.step();
    }
}
