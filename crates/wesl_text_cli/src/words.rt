//! The words that the program is called with.
use clap::{Arg, ArgAction, ArgMatches, Command};
use std::alloc::{AllocError, Global};
use wesl_cond_features::Feature;
use wesl_text_link::{Naming, Validation};
use wesl_text_project::feature_of;

static ANSWERS: [&str; 4] = ["enable", "disable", "keep", "error"];

static COLORS: [&str; 3] = ["auto", "always", "never"];

static MANGLERS: [&str; 3] = ["escape", "unicode", "none"];

// What is told of the program.
const ABOUT: &str = "Links the WESL files below a folder and prints the linked unit as WGSL.

The modules are the files *.wesl and *.wgsl below PROJECT: a/b.wesl is `package::a::b`, and package.wesl or lib.wesl, directly in it, is `package`. Where PROJECT is a file, its folder is taken, and the file is the root. The root is `package::main` unless --root says otherwise, and its entry points are kept unless --keep does. A file wesl.toml or project.json in the folder may say the root, what is kept, packages and sets of flags; the options here come before it. Each module is read when it is asked for. Each declaration is printed below a comment with its module, item, file and line.";

const STATUS: &str =
    "status: 0 linked; 1 a fault, on standard error as FILE:LINE:COLUMN: error: TEXT; 2 wrong use; 3 printed, but the names clash or capture words of `var<..>`, so that the text is not what the modules mean.";

/// The command line of the program.
pub fn command<'a>(alloc: Global) -> Result<Command<'a>, AllocError> {
    let command = Command::new(alloc, "wesl-text")
        .version("0.1.0")
        .about(ABOUT)
        .after_help(STATUS)
        .arg(
            Arg::new(alloc, "PROJECT")
                .required(true)
                .help("a folder, or the file of the root module"),
        )?;
    with_outputs(alloc, with_names(alloc, with_flags(alloc, command)?)?)
}

// An option with a value.
fn option<'a>(alloc: Global, name: &'a str, value: &'a str, help: &'a str) -> Arg<'a> {
    Arg::new(alloc, name)
        .long(name)
        .value_name(value)
        .action(ArgAction::Set)
        .help(help)
}

// An option that may be given again.
fn options<'a>(alloc: Global, name: &'a str, value: &'a str, help: &'a str) -> Arg<'a> {
    Arg::new(alloc, name)
        .long(name)
        .value_name(value)
        .action(ArgAction::Append)
        .help(help)
}

// An option without a value.
fn flag<'a>(alloc: Global, name: &'a str, help: &'a str) -> Arg<'a> {
    Arg::new(alloc, name)
        .long(name)
        .action(ArgAction::SetTrue)
        .help(help)
}

// With what is asked of features and packages.
fn with_flags<'a>(alloc: Global, command: Command<'a>) -> Result<Command<'a>, AllocError> {
    command
        .arg(options(
            alloc,
            "feature",
            "NAME=WORD",
            "the answer to a flag: enable, disable, keep or error; NAME alone enables it",
        ))?
        .arg(option(
            alloc,
            "other-features",
            "WORD",
            "the answer to all other flags (disable)",
        )
        .value_parser(ANSWERS.as_slice()))?
        .arg(option(
            alloc,
            "set",
            "NAME",
            "the set of flags of this name in wesl.toml or project.json",
        ))?
        .arg(flag(
            alloc,
            "no-features",
            "judge no condition: all stay, and the text is WESL",
        ))?
        .arg(options(
            alloc,
            "package",
            "NAME=FOLDER",
            "a package that the modules use; A/B=FOLDER is the package B that the package A uses",
        ))?
        .arg(flag(
            alloc,
            "copies",
            "link a package once for each package that uses it; without this, packages that use one folder share it",
        ))
}

// With what is asked of the root and of names.
fn with_names<'a>(alloc: Global, command: Command<'a>) -> Result<Command<'a>, AllocError> {
    command
        .arg(option(
            alloc,
            "root",
            "PATH",
            "the path of the root module, as package::main",
        ))?
        .arg(options(
            alloc,
            "keep",
            "NAME",
            "a name of the root that is kept, with all that it needs; may be given again",
        ))?
        .arg(option(
            alloc,
            "mangler",
            "WORD",
            "how names of modules are written (escape)",
        )
        .value_parser(MANGLERS.as_slice()))?
        .arg(flag(alloc, "mangle-root", "write the root's names so too"))?
        .arg(flag(
            alloc,
            "eager",
            "follow every import, and print all that the loaded modules declare",
        ))?
        .arg(flag(
            alloc,
            "validate",
            "ask besides that calls fit, that no name is declared twice and that no declaration needs itself",
        ))?
        .arg(flag(
            alloc,
            "no-validate",
            "do not ask that names are declared or built in",
        ))?
        .arg(option(
            alloc,
            "builtins",
            "FILE",
            "the names that are built in, as docs/wgsl_builtins.json has those of WGSL",
        ))
}

// With what is written, and where.
fn with_outputs<'a>(alloc: Global, command: Command<'a>) -> Result<Command<'a>, AllocError> {
    command
        .arg(flag(alloc, "no-comments", "print no comment before declarations"))?
        .arg(option(
            alloc,
            "output",
            "FILE",
            "write there, and not to standard output",
        )
        .alias("out")?)?
        .arg(option(
            alloc,
            "depfile",
            "FILE",
            "write the files of the loaded modules there, as a Makefile rule for the --output, or for FILE without its ending .d",
        ))?
        .arg(option(
            alloc,
            "map",
            "FILE",
            "write a source map (revision 3) there, which leads from the text to the files of the modules",
        ))?
        .arg(option(
            alloc,
            "color",
            "WHEN",
            "whether faults are colored: on a terminal without NO_COLOR, or as is said",
        )
        .value_parser(COLORS.as_slice()))?
        .arg(option(
            alloc,
            "bundle",
            "FILE",
            "write the bundle of the loaded modules there, as wesl-link and wesl-explain read it, also where the link has a fault",
        ))?
        .arg(
            option(
                alloc,
                "explain",
                "NAME",
                "write in place of the text why the link is as it is, or --explain=NAME why the declarations of this name are held",
            )
            .num_args(0_usize..=1)
            .require_equals(true)
            .default_missing_value(""),
        )?
        .arg(flag(
            alloc,
            "progress",
            "tell on standard error how many modules were read, every second",
        ))
}

/// An answer to a flag: `NAME=WORD`, or `NAME` alone, which enables it.
pub fn flag_of(word: &str) -> Option<(&str, Feature)> {
    let (name, answer) = match word.split_once('=') {
        Some((name, answer)) => (name, feature_of(answer)?),
        None => (word, Feature::Enable),
    };
    if name.is_empty() {
        None
    } else {
        Some((name, answer))
    }
}

/// A package and its folder: `NAME=FOLDER`.
pub fn package_of(word: &str) -> Option<(&str, &str)> {
    match word.split_once('=') {
        Some((name, folder)) if !name.is_empty() && !folder.is_empty() => Some((name, folder)),
        _ => None,
    }
}

/// How the names of modules are written.
pub fn naming_of(matches: &ArgMatches<'_>) -> Naming {
    match matches.get_str("mangler") {
        Some("unicode") => Naming::Unicode,
        Some("none") => Naming::Own,
        _ => Naming::Escape,
    }
}

/// What is asked of names.
pub fn validation_of(matches: &ArgMatches<'_>) -> Validation {
    if matches.get_flag("validate") {
        Validation::Calls
    } else if matches.get_flag("no-validate") {
        Validation::Nothing
    } else {
        Validation::Names
    }
}
