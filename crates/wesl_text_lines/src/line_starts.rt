//! Where the lines of a text begin, held to tell the lines of many bytes.
ghost use Rattle.std.specs.Prelude.{◌≡◌, IfOk};
ghost use Rattle.wesl_tree_base.specs.Pieces.{Text};
ghost use Rattle.wesl_text_lines.specs.Lines.{line_of, line_starts};
ghost use Rattle.wesl_text_lines.specs.Starts.{starts_view};

use crate::line_end::ends_line;
use std::alloc::{AllocError, Global};

/// The bytes with which the lines of a text begin.
#[derive(Drop)]
pub struct LineStarts {
    starts: Vec<usize>,
}

impl LineStarts {
    /// Those of a text.
    ///
    /// # Errors
    ///
    /// An error means that memory ran out.
    pub fn of(alloc: Global, text: &str) -> Result<LineStarts, AllocError>
        ensures { IfOk result (λ lines. starts_view lines ≡ line_starts text.now) }
    {
        let mut starts = Vec::new(alloc);
        starts.push(0)?;
        let mut rest = text.char_indices();
        while let Some((_, character)) = rest.next() {
            if ends_line(character, rest.as_str()) {
                starts.push(rest.offset())?;
            }
        }
        Ok(LineStarts { starts })
    }

    /// The line of a byte of the text, as [`place_of`](crate::place_of) tells it.
    pub fn line(&self, offset: usize) -> usize
        ensures { (text : Text) → starts_view self.now ≡ line_starts text → result ≡ line_of text offset }
    {
        self.starts.partition_point(|start| *start <= offset)
    }
}
