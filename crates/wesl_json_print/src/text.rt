//! Texts that are printed.
ghost use Rattle.std.specs.Prelude.{◌≡◌, ◌++◌, false, IfOk, IsOk, OnOk, string_bytes};

use json::Writer;
use std::alloc::AllocError;
use wesl_json_print_nodes::Sink;

/// A text that is printed, unless there is no memory for it.
pub type Printed = Result<String, AllocError>;

/// The text, and more behind it.
pub fn print_text(text: String, more: &str) -> Printed
    ensures { IfOk result (λ s. string_bytes s ≡ string_bytes text ++ more.now) }
{
    let mut text = text;
    text.push_str(more)?;
    Ok(text)
}

/// A sink that writes what it is told as a text, behind what a writer holds.
#[derive(Drop)]
pub(crate) struct TextSink {
    /// what is written
    out: Writer,
    /// whether memory was wanting
    is_refused: bool,
}

impl TextSink {
    /// A sink behind what a writer holds.
    pub(crate) fn new(out: Writer) -> TextSink
        ensures out { result.out ≡ out }
        ensures noted { result.is_refused ≡ false }
    {
        TextSink {
            out,
            is_refused: false,
        }
    }

    /// What was written, unless memory was wanting for it.
    pub(crate) fn end(self) -> Result<Writer, AllocError>
        ensures given { IfOk result (λ out. out ≡ self.out) }
        ensures noted { OnOk result (self.is_refused ≡ false) }
    {
        if self.is_refused {
            Err(AllocError)
        } else {
            Ok(self.out)
        }
    }

    // Notes whether memory was wanting.
    fn note(&mut self, done: Result<(), AllocError>)
        ensures out { self.new.out ≡ self.old.out }
        ensures done { self.new.is_refused ≡ false → IsOk done }
        ensures noted { self.new.is_refused ≡ false → self.old.is_refused ≡ false }
    {
        if done.is_err() {
            self.is_refused = true;
        }
    }
}

impl Sink for TextSink {
    ghost use Rattle.wesl_json_print.specs.Texts.{WritesEvents, writes_none, writes_more};

    ghost after = { WritesEvents };

    fn begin(&mut self) {
        let done = self.out.begin_object();
        self.note(done);
    }

    fn close(&mut self) {
        let done = self.out.end_object();
        self.note(done);
    }

    fn begin_list(&mut self) {
        let done = self.out.begin_array();
        self.note(done);
    }

    fn close_list(&mut self) {
        let done = self.out.end_array();
        self.note(done);
    }

    fn key(&mut self, key: &str) {
        let done = self.out.key(key);
        self.note(done);
    }

    fn text(&mut self, text: &str) {
        let done = self.out.string(text);
        self.note(done);
    }

    fn truth(&mut self, truth: bool) {
        let done = self.out.boolean(truth);
        self.note(done);
    }

    fn number(&mut self, whole: u32) {
        let done = self.out.u64(u64::from(whole));
        self.note(done);
    }

    fn refuse(&mut self) {
        self.is_refused = true;
    }

    ghost none = { writes_none };

    ghost more = { writes_more };
}
