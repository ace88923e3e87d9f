//! Telling values to a sink.
ghost use Rattle.std.specs.Prelude.{◌≡◌, [], ◌∷◌, codes};
ghost use Rattle.wesl_json_print_nodes.specs.Events.{begins, begins_list, ends, ends_list, key as key_event};
ghost use Rattle.serde_json.specs.Data.{boolean, no_members, number, string, unsigned};
ghost use Rattle.wesl_json_form.specs.Writing.{put_span};
ghost use Rattle.wesl_json_words.specs.Values.{place_label};
ghost use Rattle.wesl_tree_names.specs.Path.{path_view};
ghost use Rattle.wesl_tree_names.specs.PathText.{to_text};
ghost use Rattle.wesl_tree_syntax.specs.Tree.{Kind};

use crate::sink::Sink;
use std::alloc::Global;
use wesl_json_words::is_shown;
use wesl_tree_names::{ModulePath, Span};

/// Tells values to a sink, piece by piece.
#[derive(Drop)]
pub struct Printer<S> {
    /// where texts of paths are made
    pub alloc: Global,
    /// what is told them
    pub sink: S,
}

impl<S: Sink> Printer<S> {
    ghost use Rattle.wesl_json_print_nodes.specs.Printing.{PrintsEvents, Prints, PrintsMember, PrintsMembers};

    /// A printer for a sink.
    pub fn new(alloc: Global, sink: S) -> Printer<S>
        ensures sink { result.sink ≡ sink }
    {
        Printer { alloc, sink }
    }

    /// What was told the values.
    pub fn into_sink(self) -> S
        ensures { result ≡ self.sink }
    {
        self.sink
    }

    /// Begins an object.
    pub fn begin(&mut self)
        ensures { PrintsEvents S.after self.old self.new (begins ∷ []) }
    {
        self.sink.begin();
    }

    /// Ends an object.
    pub fn close(&mut self)
        ensures { PrintsEvents S.after self.old self.new (ends ∷ []) }
    {
        self.sink.close();
    }

    /// Begins a list.
    pub fn begin_list(&mut self)
        ensures { PrintsEvents S.after self.old self.new (begins_list ∷ []) }
    {
        self.sink.begin_list();
    }

    /// Ends a list.
    pub fn close_list(&mut self)
        ensures { PrintsEvents S.after self.old self.new (ends_list ∷ []) }
    {
        self.sink.close_list();
    }

    /// Prints a key.
    pub fn key(&mut self, key: &str)
        ensures { PrintsEvents S.after self.old self.new (key_event key.now ∷ []) }
    {
        self.sink.key(key);
    }

    /// Prints a text.
    pub fn text(&mut self, text: &str)
        ensures { Prints S.after self.old self.new (string text.now) }
    {
        self.sink.text(text);
    }

    /// Prints a truth value.
    pub fn truth(&mut self, truth: bool)
        ensures { Prints S.after self.old self.new (boolean truth) }
    {
        self.sink.truth(truth);
    }

    /// Prints a whole number.
    pub fn number(&mut self, whole: u32)
        ensures { Prints S.after self.old self.new (number (unsigned whole)) }
    {
        self.sink.number(whole);
    }

    /// Prints a text at a key.
    pub fn text_at(&mut self, key: &str, text: &str)
        ensures { PrintsMember S.after self.old self.new key.now (string text.now) }
    {
        self.key(key);
        self.text(text);
    }

    /// Prints a path's text.
    pub fn path(&mut self, path: &ModulePath)
        ensures { Prints S.after self.old self.new (string (to_text (path_view path.now))) }
    {
        match path.to_text(self.alloc) {
            Ok(text) => self.text(text.as_str()),
            Err(_) => self.sink.refuse(),
        }
    }

    /// Prints the span of a node, where it is to be printed.
    pub fn span(&mut self, spans: bool, span: Span)
        ensures { (k : Kind) → PrintsMembers S.after self.old self.new (put_span spans (place_label spans k span) no_members) }
    {
        if is_shown(spans, span) {
            self.key("span");
            self.begin_list();
            self.number(span.start);
            self.number(span.end);
            self.close_list();
        }
    }
}
