//! A sink that makes the text of the tokens that it is given.
ghost use Rattle.std.specs.Prelude.{◌≡◌, ◌∷◌, [], Bool, Some, None, OnOk, true, false, string_bytes};
ghost use Rattle.wesl_tree_base.specs.Pieces.{is_empty};
ghost use Rattle.wesl_tree_base.specs.Borrowed.{texts};
ghost use Rattle.wesl_text_form.specs.Names.{are_names, is_name, is_word};
ghost use Rattle.wesl_text_form.specs.Slots.{must};
ghost use Rattle.wesl_text_form.specs.Spelling.{named, parted, provided, signed};
ghost use Rattle.wesl_text_tokens.specs.declared.symbol.Symbol.TheVariants as sign;
ghost use Rattle.wesl_text_sink.specs.declared.sink.Gap.TheVariants as gaps;
ghost use Rattle.wesl_text_sink.specs.Layout.{are_apart, are_blanks, last_kind, token_by, token_text};
ghost use Rattle.wesl_text_sink.specs.Words.{Tells};

use crate::fault::PrintFault;
use crate::kind::{Kind, Mark, may_touch, sign_text};
use crate::reading::is_read_as;
use crate::words::{between_dots, between_slashes, is_name, is_number, is_word};
use std::alloc::{AllocError, Global};
use wesl_text_print::{TokenSink, Unwritable};
use wesl_text_tokens::Symbol;

/// What is to stand before the next token.
#[derive(Clone, Copy, Debug, Drop)]
pub enum Gap {
    /// nothing, unless the two tokens would run together
    Nothing,
    /// a blank
    Blank,
    /// a new line
    Line,
    /// an empty line
    EmptyLine,
}

/// Makes the text of the tokens that it is given.
#[derive(Drop)]
pub struct TextSink {
    /// where the text is made
    pub alloc: Global,
    /// the text so far
    pub text: String,
    /// the tokens in it
    pub marks: Vec<Mark>,
    /// what is to stand before the next token
    pub gap: Gap,
    /// by how many levels lines are indented
    pub depth: usize,
    /// the first fault
    pub fault: Option<PrintFault>,
}

impl TextSink {
    ghost use Rattle.wesl_text_sink.specs.Filling.{Blanked, Fills, Lays, Notes, Parted, Parts, Shows, rule_slots, slashed_name, slashed_slots};

    /// No text yet.
    pub fn new(alloc: Global) -> TextSink
        ensures shows { Shows result [] }
        ensures fault { result.fault ≡ None }
    {
        TextSink {
            alloc,
            text: String::new(alloc),
            marks: Vec::new(alloc),
            gap: Gap::Nothing,
            depth: 0,
            fault: None,
        }
    }

    // Notes a fault, unless one was noted before.
    fn note(&mut self, fault: PrintFault)
        ensures { Notes fault self.old self.new }
    {
        if self.fault.is_none() {
            self.fault = Some(fault);
        }
    }

    // Writes a token with the blanks before it; the text of a symbol is its own.
    fn put(&mut self, kind: Kind, text: &str)
        requires { token_text (token_by kind text.now) ≡ text.now }
        ensures { Fills (Some (must (token_by kind text.now) ∷ [])) self.old self.new }
    {
        if self.fault.is_some() {
            return;
        }
        if self.lay(kind, text).is_err() {
            self.fault = Some(PrintFault::Memory);
        }
    }

    // Writes a token with the blanks before it where a test holds; else it notes a fault.
    fn put_if(
        &mut self,
        test: Result<bool, PrintFault>,
        kind: Kind,
        text: &str,
        otherwise: PrintFault,
    )
        requires { token_text (token_by kind text.now) ≡ text.now }
        ensures { (b : Bool) → Tells test b → Fills (provided b (must (token_by kind text.now) ∷ [])) self.old self.new }
    {
        match test {
            Ok(true) => self.put(kind, text),
            Ok(false) => self.note(otherwise),
            Err(limit) => self.note(limit),
        }
    }

    // Writes a symbol.
    fn put_symbol(&mut self, sign: Symbol)
        ensures { Fills (Some (signed sign ∷ [])) self.old self.new }
    {
        let kind = Kind::Symbol(sign);
        self.put(kind, sign_text(kind));
    }

    // Writes a text that must be a word.
    fn put_word(&mut self, text: &str)
        ensures { Fills (provided (is_word text.now) (named text.now ∷ [])) self.old self.new }
    {
        self.put_if(
            is_word(self.alloc, text),
            Kind::Name,
            text,
            PrintFault::NoWord,
        );
    }

    // Writes a text that must be a name.
    fn put_name(&mut self, text: &str)
        ensures { Fills (provided (is_name text.now) (named text.now ∷ [])) self.old self.new }
    {
        self.put_if(
            is_name(self.alloc, text),
            Kind::Name,
            text,
            PrintFault::NoName,
        );
    }

    // Writes names with slashes between them.
    fn put_names(&mut self, names: &[&str])
        ensures { Fills (provided (are_names (texts names.now)) (parted sign.Slash (texts names.now))) self.old self.new }
    {
        if let [first, others @ ..] = names {
            self.put_name(first);
            self.put_others(others);
        }
    }

    // Writes names, each with a slash before it.
    fn put_others(&mut self, names: &[&str])
        ensures { Fills (slashed_slots (texts names.now)) self.old self.new }
    {
        for index in 0..names.len() {
            self.put_slashed(names[index]);
        }
    }

    // Writes a name with a slash before it.
    fn put_slashed(&mut self, name: &str)
        ensures { Fills (slashed_name name.now) self.old self.new }
    {
        self.put_symbol(Symbol::Slash);
        self.put_name(name);
    }

    // Writes the parts of a rule with a dot between them: one word, or two.
    fn put_rule(&mut self, words: &[&str])
        ensures { Fills (rule_slots (texts words.now)) self.old self.new }
    {
        match words {
            [word] => self.put_word(word),
            [first, second] => {
                self.put_word(first);
                self.put_symbol(Symbol::Period);
                self.put_word(second);
            }
            _ => self.note(PrintFault::NoRule),
        }
    }

    // Writes a token with the blanks before it, and marks where it stands.
    fn lay(&mut self, kind: Kind, text: &str) -> Result<(), AllocError>
        ensures fault { self.new.fault ≡ self.old.fault }
        ensures laid { OnOk result (Lays kind text.now self.old self.new) }
    {
        self.write_gap(kind)?;
        let start = self.text.len();
        self.text.push_str(text)?;
        let end = self.text.len();
        self.marks.push(Mark { kind, start, end })?;
        Ok(())
    }

    // Writes the blanks before a token of this kind.
    fn write_gap(&mut self, kind: Kind) -> Result<(), AllocError>
        ensures fault { self.new.fault ≡ self.old.fault }
        ensures parts { OnOk result (Parts kind self.old self.new) }
    {
        let gap = self.gap_before(kind);
        self.gap = Gap::Nothing;
        match gap {
            Gap::Nothing => Ok(()),
            Gap::Blank => self.text.push_str(" "),
            Gap::Line => self.write_line("\n"),
            Gap::EmptyLine => self.write_line("\n\n"),
        }
    }

    // What stands before a token of this kind: nothing before the first one.
    fn gap_before(&self, kind: Kind) -> Gap
        ensures { result ≡ gaps.Nothing → are_apart (last_kind self.now.marks.items) [] kind ≡ true }
    {
        let Some(last) = self.marks.last() else {
            return Gap::Nothing;
        };
        match self.gap {
            Gap::Nothing => {
                if may_touch(last.kind, kind) {
                    Gap::Nothing
                } else {
                    Gap::Blank
                }
            }
            gap => gap,
        }
    }

    // Writes ends of lines and the blanks of a new line.
    fn write_line(&mut self, ends: &str) -> Result<(), AllocError>
        requires blanks { are_blanks ends.now ≡ true }
        requires some { is_empty ends.now ≡ false }
        ensures fault { self.new.fault ≡ self.old.fault }
        ensures marks { self.new.marks ≡ self.old.marks }
        ensures parted { OnOk result (Parted (string_bytes self.old.text) (string_bytes self.new.text)) }
    {
        self.text.push_str(ends)?;
        for _level in 0..self.depth {
            self.text.push_str("    ")?;
        }
        Ok(())
    }
}

impl TextSink {
    ghost use Rattle.wesl_text_sink.specs.Filling.{Blanked};
    ghost use Rattle.wesl_text_sink.specs.Finished.{Finishes};

    // Ends the last line, if there is one, where a new one was to begin.
    fn end_line(&mut self) -> Result<(), AllocError>
        ensures marks { self.new.marks ≡ self.old.marks }
        ensures blanked { OnOk result (Blanked (string_bytes self.old.text) (string_bytes self.new.text)) }
    {
        match self.gap {
            Gap::Line | Gap::EmptyLine if !self.marks.is_empty() => self.text.push_str("\n"),
            _ => Ok(()),
        }
    }

    /// The text, where it is read as the tokens that were given, with the end of a line behind it where a new one was to begin.
    ///
    /// # Errors
    ///
    /// The first fault that was noted; [`PrintFault::NotAsMeant`] where the text is read as other tokens; and the limits,
    /// [`PrintFault::TooLong`] and [`PrintFault::Memory`].
    pub fn finish(mut self) -> Result<String, PrintFault>
        ensures { Finishes self result }
    {
        if let Some(fault) = self.fault {
            return Err(fault);
        }
        if self.end_line().is_err() {
            return Err(PrintFault::Memory);
        }
        if is_read_as(self.alloc, self.text.as_str(), self.marks.as_slice())? {
            Ok(self.text)
        } else {
            Err(PrintFault::NotAsMeant)
        }
    }
}

impl TokenSink for TextSink {
    ghost use Rattle.wesl_text_sink.specs.Filling.{Fills, fills_more, fills_none};

    ghost after = { Fills };

    fn keyword(&mut self, word: &str) {
        self.put(Kind::Name, word);
    }

    fn word(&mut self, text: &str) {
        self.put_word(text);
    }

    fn name(&mut self, text: &str) {
        self.put_name(text);
    }

    fn package(&mut self, text: &str) {
        match between_slashes(self.alloc, text) {
            Ok(parts) => self.put_names(parts.as_slice()),
            Err(_) => self.note(PrintFault::Memory),
        }
    }

    fn rule(&mut self, text: &str) {
        match between_dots(self.alloc, text) {
            Ok(parts) => self.put_rule(parts.as_slice()),
            Err(_) => self.note(PrintFault::Memory),
        }
    }

    fn number(&mut self, text: &str) {
        self.put_if(
            is_number(self.alloc, text),
            Kind::Number,
            text,
            PrintFault::NoNumber,
        );
    }

    fn symbol(&mut self, sign: Symbol) {
        self.put_symbol(sign);
    }

    fn may(&mut self, _sign: Symbol) {}

    fn open_list(&mut self) {
        self.put(Kind::OpenList, sign_text(Kind::OpenList));
    }

    fn close_list(&mut self) {
        self.put(Kind::CloseList, sign_text(Kind::CloseList));
    }

    fn default(&mut self) {
        self.put(Kind::Name, "default");
    }

    fn refuse(&mut self, fault: Unwritable) {
        self.note(PrintFault::Unwritable(fault));
    }

    fn space(&mut self) {
        match self.gap {
            Gap::Nothing => self.gap = Gap::Blank,
            _ => {}
        }
    }

    fn line(&mut self) {
        self.gap = match self.gap {
            Gap::Nothing | Gap::Blank => Gap::Line,
            Gap::Line | Gap::EmptyLine => Gap::EmptyLine,
        };
    }

    fn indent(&mut self) {
        self.depth = self.depth.saturating_add(1);
    }

    fn outdent(&mut self) {
        self.depth = self.depth.saturating_sub(1);
    }

    ghost none = { fills_none };

    ghost more = { fills_more };
}
