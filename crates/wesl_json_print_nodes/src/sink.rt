//! What is told a value, piece by piece.
ghost use Rattle.std.specs.Prelude.{◌≡◌, List, [], ◌∷◌, ◌++◌};
ghost use Rattle.serde_json.specs.Data.{boolean, number, string, unsigned};
ghost use Rattle.wesl_json_print_nodes.specs.Events.{Event, begins, begins_list, ends, ends_list, gives, key as key_event};

/// What is told a value, piece by piece: a text that is printed, a value that is built.
///
/// Nothing that it is told is refused at once. A sink that wants memory notes it, and its end tells it.
pub trait Sink {
    // these events lead from the first sink to the second
    ghost after: { List Event → Self → Self → Type 0 };

    /// An object begins.
    fn begin(&mut self)
        ensures { after (begins ∷ []) self.old self.new };

    /// It ends.
    fn close(&mut self)
        ensures { after (ends ∷ []) self.old self.new };

    /// A list begins.
    fn begin_list(&mut self)
        ensures { after (begins_list ∷ []) self.old self.new };

    /// It ends.
    fn close_list(&mut self)
        ensures { after (ends_list ∷ []) self.old self.new };

    /// The key of the value that comes.
    fn key(&mut self, key: &str)
        ensures { after (key_event key.now ∷ []) self.old self.new };

    /// A text.
    fn text(&mut self, text: &str)
        ensures { after (gives (string text.now) ∷ []) self.old self.new };

    /// A truth value.
    fn truth(&mut self, truth: bool)
        ensures { after (gives (boolean truth) ∷ []) self.old self.new };

    /// A whole number.
    fn number(&mut self, whole: u32)
        ensures { after (gives (number (unsigned whole)) ∷ []) self.old self.new };

    /// Memory was wanting for what was to be told. From here on nothing is shown of what comes.
    fn refuse(&mut self)
        ensures { (es : List Event) → after es self.old self.new };

    // no event changes nothing, and events follow one another
    ghost none: { (s : Self) → after [] s s };

    ghost more: { (es fs : List Event) (a b c : Self) → after es a b → after fs b c → after (es ++ fs) a c };
}
