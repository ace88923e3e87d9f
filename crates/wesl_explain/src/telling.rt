//! What is written, and how the program ends.
ghost use Rattle.std.specs.Prelude.{◌≡◌, string_bytes, IfOk};
ghost use Rattle.std.specs.Process.{exit_status};
ghost use Rattle.wesl_explain.specs.Ends.{Ends, status_of};
ghost use Rattle.wesl_explain.specs.Explained.{IsToldOf};

use crate::as_json::json_of;
use std::alloc::{AllocError, Global};
use std::io::{Read, Write};
use std::process::ExitCode;
use wesl_explain_graph::{Graph, graph_of};
use wesl_explain_text::{Places, Shown, text_of};
use wesl_explain_world::{Explanation, explained};
use wesl_program::{NotedStream, read_whole, write_whole};

/// How the program ends once something is told.
#[derive(Clone, Copy, PartialEq, Eq)]
pub enum Ending {
    /// The bundle links.
    Linked,
    /// The bundle is refused.
    Refused,
    /// A write failed or took no byte, as where the reader of a pipe is gone.
    Unwritten,
}

impl Ending {
    /// The status: 0 where the bundle links, 1 where it is refused, and 2 where a write failed.
    pub fn status(self) -> ExitCode
        ensures { exit_status result ≡ status_of self }
    {
        match self {
            Ending::Linked => ExitCode::SUCCESS,
            Ending::Refused => ExitCode::from(1),
            Ending::Unwritten => ExitCode::from(2),
        }
    }
}

/// All bytes of a reader, unless a read fails or memory is wanting.
pub fn bytes_of<R: Read>(alloc: Global, reader: &mut R) -> Option<Vec<u8>> {
    read_whole(alloc, &mut NotedStream::new(reader)).ok()
}

/// What is told of a bundle: whether it links, and the text.
#[derive(Drop)]
pub struct Told {
    is_linked: bool,
    text: String,
}

/// How a bundle is told of.
#[derive(Clone, Copy)]
pub enum Form<'a> {
    /// As text, all of it or a part.
    Text(Shown<'a>),
    /// As JSON.
    Json,
    /// As a graph for Graphviz.
    Drawn(Graph),
}

/// What is told in this form of the bundle that the bytes are.
pub fn told_of(alloc: Global, bytes: &[u8], form: Form<'_>) -> Result<Told, AllocError>
    ensures { IfOk result (IsToldOf bytes.now) }
{
    let explanation = explained(alloc, bytes)?;
    let is_linked = explanation.faults.is_empty();
    let text = form_of(alloc, explanation, form)?;
    Ok(Told { is_linked, text })
}

fn form_of(alloc: Global, told: Explanation, form: Form<'_>) -> Result<String, AllocError> {
    match form {
        Form::Json => json_of(alloc, &told),
        Form::Drawn(graph) => graph_of(alloc, told, graph),
        Form::Text(shown) => {
            let places = Places {
                files: &[],
                held: &[],
                unused: &[],
            };
            text_of(alloc, &told, shown, places)
        }
    }
}

/// Writes what is told, and says how the program ends. Where the reader is gone, as the end of a pipe, nothing is said of it.
pub fn write_told<W: Write>(told: &Told, writer: &mut W) -> Ending
    ensures { Ends told.now.is_linked (string_bytes told.now.text) (W.contents writer.old) (W.contents writer.new) result }
{
    let mut noted = NotedStream::new(writer);
    if !write_whole(&mut noted, told.text.as_bytes()) {
        return Ending::Unwritten;
    }
    if told.is_linked {
        Ending::Linked
    } else {
        Ending::Refused
    }
}
