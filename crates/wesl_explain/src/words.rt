//! The words that the program is called with.

use crate::telling::Form;
use clap::{Arg, ArgAction, ArgMatches, Command};
use std::alloc::{AllocError, Global};
use wesl_explain_graph::Graph;
use wesl_explain_text::Shown;

static GRAPHS: [&str; 2] = ["modules", "declarations"];

/// What the program is asked for.
#[derive(Clone, Copy)]
pub struct Wish<'a> {
    /// How the bundle is told of.
    pub form: Form<'a>,
    /// The file that holds the bundle; without one it is on standard input.
    pub file: Option<&'a str>,
}

/// The command line of the program.
pub fn command<'a>(alloc: Global) -> Result<Command<'a>, AllocError> {
    let json = Arg::new(alloc, "json")
        .long("json")
        .help("Write one JSON object (docs/schema/explanation.json) in place of text")
        .action(ArgAction::SetTrue);
    let why = Arg::new(alloc, "why")
        .long("why")
        .value_name("NAME")
        .help("Tell only why the declarations of this name are held");
    let module = Arg::new(alloc, "module")
        .long("module")
        .value_name("PATH")
        .help("Tell only of what is held in this module");
    let graph = Arg::new(alloc, "graph")
        .long("graph")
        .value_name("WHAT")
        .help(
            "Write a graph for Graphviz (dot): the modules that were loaded and who loads them, or with --graph=declarations what is held and who refers to it",
        )
        .value_parser(GRAPHS.as_slice())
        .num_args(0_usize..=1)
        .require_equals(true)
        .default_missing_value("modules")
        .conflicts_with("json")?
        .conflicts_with("why")?
        .conflicts_with("module")?;
    let file = Arg::new(alloc, "FILE").help("The bundle [default: standard input]");
    Command::new(alloc, "wesl-explain")
        .version("for trees of the forms 1 and 2")
        .about(
            "Tells why the link of a bundle is as it is: what is held and why, what clashes, what stays free",
        )
        .after_help(
            "Ends with 0 where the bundle links, with 1 where it is refused, and with 2 for wrong words and where a read or a write fails.",
        )
        .arg(json)?
        .arg(why)?
        .arg(module)?
        .arg(graph)?
        .arg(file)
}

/// How the bundle is told of: as a graph, or as JSON or text.
fn form_of<'a>(matches: &ArgMatches<'a>) -> Form<'a> {
    match matches.get_str("graph") {
        Some("declarations") => Form::Drawn(Graph::Declarations),
        Some(_) => Form::Drawn(Graph::Modules),
        None if matches.get_flag("json") => Form::Json,
        None => Form::Text(Shown {
            name: matches.get_str("why"),
            module: matches.get_str("module"),
        }),
    }
}

/// What these words ask for.
pub fn wish_of<'a>(matches: &ArgMatches<'a>) -> Wish<'a> {
    Wish {
        form: form_of(matches),
        file: matches.get_str("FILE"),
    }
}
