//! Printing directives.
ghost use Rattle.std.specs.Prelude.{codes};
ghost use Rattle.serde_json.specs.Data.{array};
ghost use Rattle.wesl_json_form.specs.Schema.{a_directive};
ghost use Rattle.wesl_json_print_nodes.specs.Printing.{Prints, PrintsList, at_place};
ghost use Rattle.wesl_json_print.specs.Members.{attributed, names_members, rule_members};
ghost use Rattle.wesl_json_words.specs.Values.{items_in, placed_at};
ghost use Rattle.wesl_tree_syntax.specs.Tree.{directive_node};
ghost use Rattle.wesl_tree_syntax.specs.View.{directive_view, directives_tree};

use wesl_json_print_nodes::{Printer, Sink, print_attributes, print_names};
use wesl_tree_names::{Names, Span};
use wesl_tree_syntax::{Attributes, GlobalDirective, GlobalDirectiveNode};

/// Prints the directives of a unit as the member `directives`, unless there are none.
pub fn print_directives<S: Sink>(
    out: &mut Printer<S>,
    spans: bool,
    names: &Names,
    directives: &Vec<GlobalDirectiveNode>,
)
    ensures { PrintsList S.after out.old out.new (codes "directives") (items_in spans names.now a_directive (directives_tree directives.now).children) }
{
    if !directives.is_empty() {
        out.key("directives");
        print_each(out, spans, names, directives);
    }
}

// Prints directives as a list.
fn print_each<S: Sink>(
    out: &mut Printer<S>,
    spans: bool,
    names: &Names,
    directives: &Vec<GlobalDirectiveNode>,
)
    ensures { Prints S.after out.old out.new (array (items_in spans names.now a_directive (directives_tree directives.now).children)) }
{
    out.begin_list();
    for directive in directives {
        print_directive(out, spans, names, &directive.node, directive.span);
    }
    out.close_list();
}

fn print_directive<S: Sink>(
    out: &mut Printer<S>,
    spans: bool,
    names: &Names,
    directive: &GlobalDirective,
    span: Span,
)
    ensures { Prints S.after out.old out.new (placed_at spans names.now a_directive directive_node span (directive_view directive.now)) }
{
    match directive {
        GlobalDirective::Diagnostic {
            attributes,
            severity,
            rule,
        } => print_diagnostic(
            out,
            spans,
            names,
            attributes,
            severity.as_str(),
            rule.as_str(),
            span,
        ),
        GlobalDirective::Enable {
            attributes,
            names: enabled,
        } => print_extensions(out, spans, names, "enable", attributes, enabled, span),
        GlobalDirective::Requires {
            attributes,
            names: needed,
        } => print_extensions(out, spans, names, "requires", attributes, needed, span),
    }
}

fn print_diagnostic<S: Sink>(
    out: &mut Printer<S>,
    spans: bool,
    names: &Names,
    attributes: &Attributes,
    severity: &str,
    rule: &str,
    span: Span,
)
    ensures { Prints S.after out.old out.new (at_place spans directive_node span (attributed spans names.now (codes "diagnostic") attributes.now (rule_members severity.now rule.now))) }
{
    out.begin();
    print_attributes(out, spans, names, "attrs", attributes);
    out.text_at("k", "diagnostic");
    out.text_at("rule", rule);
    out.text_at("severity", severity);
    out.span(spans, span);
    out.close();
}

fn print_extensions<S: Sink>(
    out: &mut Printer<S>,
    spans: bool,
    names: &Names,
    word: &str,
    attributes: &Attributes,
    extensions: &Vec<String>,
    span: Span,
)
    ensures { Prints S.after out.old out.new (at_place spans directive_node span (attributed spans names.now word.now attributes.now (names_members extensions.now))) }
{
    out.begin();
    print_attributes(out, spans, names, "attrs", attributes);
    out.text_at("k", word);
    print_names(out, "names", extensions);
    out.span(spans, span);
    out.close();
}
