//! How tokens are laid out, which no clause says.
use crate::fault::PrintFault;
use crate::sink::TextSink;
use wesl_text_print::{TokenSink, Unwritable};
use wesl_text_tokens::Symbol;

// Whether a finished sink hands out this text.
fn hands_out(sink: TextSink, text: &str) -> bool {
    match sink.finish() {
        Ok(made) => made.as_str() == text,
        Err(_) => false,
    }
}

// Whether a finished sink tells this fault.
fn tells(sink: TextSink, fault: PrintFault) -> bool {
    match sink.finish() {
        Ok(_) => false,
        Err(told) => told == fault,
    }
}

#[test]
fn lays_out_lists_and_calls(rt: HostRuntime) {
    let mut sink = TextSink::new(rt.alloc());
    sink.name("array");
    sink.open_list();
    sink.name("vec4");
    sink.open_list();
    sink.name("f32");
    sink.close_list();
    sink.symbol(Symbol::Comma);
    sink.space();
    sink.number("4");
    sink.close_list();
    sink.symbol(Symbol::ParenLeft);
    sink.symbol(Symbol::Minus);
    sink.symbol(Symbol::Minus);
    sink.name("x");
    sink.symbol(Symbol::BracketLeft);
    sink.number("1");
    sink.symbol(Symbol::BracketRight);
    sink.symbol(Symbol::Period);
    sink.name("y");
    sink.may(Symbol::Comma);
    sink.symbol(Symbol::ParenRight);
    assert!(rt; hands_out(sink, "array<vec4<f32>, 4>(- -x[1].y)"));
}

#[test]
fn lays_out_lines(rt: HostRuntime) {
    let mut sink = TextSink::new(rt.alloc());
    sink.line();
    sink.symbol(Symbol::At);
    sink.keyword("if");
    sink.space();
    sink.line();
    sink.keyword("loop");
    sink.space();
    sink.symbol(Symbol::BraceLeft);
    sink.indent();
    sink.line();
    sink.line();
    sink.keyword("break");
    sink.symbol(Symbol::Semicolon);
    sink.outdent();
    sink.line();
    sink.symbol(Symbol::BraceRight);
    sink.line();
    sink.line();
    assert!(rt; hands_out(sink, "@if\nloop {\n\n    break;\n}\n"));
}

#[test]
fn lays_out_nothing(rt: HostRuntime) {
    let mut sink = TextSink::new(rt.alloc());
    sink.line();
    assert!(rt; hands_out(sink, ""));
}

#[test]
fn lays_out_packages_and_rules(rt: HostRuntime) {
    let mut sink = TextSink::new(rt.alloc());
    sink.package("a/b/c");
    sink.symbol(Symbol::ColonColon);
    sink.name("d");
    sink.space();
    sink.rule("e.f");
    sink.number("1.");
    sink.symbol(Symbol::Period);
    sink.number("2");
    assert!(rt; hands_out(sink, "a/b/c::d e.f 1. . 2"));
}

#[test]
fn tells_why_there_is_no_text(rt: HostRuntime) {
    let mut keyword = TextSink::new(rt.alloc());
    keyword.name("fn");
    assert!(rt; tells(keyword, PrintFault::NoName));
    let mut number = TextSink::new(rt.alloc());
    number.number("1f1");
    number.refuse(Unwritable::Let);
    assert!(rt; tells(number, PrintFault::NoNumber));
    let mut comparison = TextSink::new(rt.alloc());
    comparison.name("a");
    comparison.space();
    comparison.symbol(Symbol::Less);
    comparison.space();
    comparison.name("b");
    comparison.space();
    comparison.symbol(Symbol::Greater);
    assert!(rt; tells(comparison, PrintFault::NotAsMeant));
}
