//! What is given the tokens of a node, one after another.
ghost use Rattle.std.specs.Prelude.{[], ◌∷◌, Some, None};
ghost use Rattle.wesl_text_form.specs.Names.{are_names, is_name, is_number, is_word};
ghost use Rattle.wesl_text_form.specs.Productions.{a_rule};
ghost use Rattle.wesl_text_form.specs.Slots.{alone, may, must};
ghost use Rattle.wesl_text_form.specs.Spelling.{Slots, followed, leaf_slots, named, parted, provided, signed};
ghost use Rattle.wesl_text_tokens.specs.declared.symbol.Symbol.TheVariants as sign;
ghost use Rattle.wesl_tree_base.specs.Pieces.{cut, slash};
ghost use Rattle.wesl_tree_syntax.specs.Tree.{end, text as text_label};
ghost use Rattle.wesl_text_tokens.specs.Tokens.{number as number_token, symbol as symbol_token, open_list as open_token, close_list as close_token};

use wesl_text_tokens::Symbol;

/// Why no text says a node.
#[derive(Clone, Copy, Debug, PartialEq, Eq)]
pub enum Unwritable {
    /// an operand that its operator takes in parentheses alone (WGSL, "Expression Grammar Summary")
    Operand,
    /// an empty template list (WGSL, "Template Lists")
    EmptyList,
    /// an attribute of a name that has a node of its own, as one of another name (WGSL, "Attributes")
    KnownAttribute,
    /// no word, or more than two, in `@interpolate`
    Words,
    /// a third size of `@workgroup_size` without a second
    Sizes,
    /// what cannot be assigned to, increased or decreased (WGSL, "Assignment Statement")
    Target,
    /// an attribute without operands before `(`, which would begin its operands (WGSL, "Attributes")
    OpenAttribute,
    /// a clause of a `switch` without selectors (WGSL, "Switch Statement")
    NoSelectors,
    /// a statement that is no part of a `for` (WGSL, "For Statement")
    ForPart,
    /// an `override` in a function
    Override,
    /// a `let` outside of functions
    Let,
    /// a `const` or a `let` without a value
    NoValue,
    /// attributes of a result where there is none
    NoResult,
    /// `enable` or `requires` without a word (WGSL, "Directives")
    NoWords,
}

/// What is given the tokens of a node. It notes the first fault, and then shows nothing of what follows.
pub trait TokenSink {
    // what the second sink was given beyond the first fills these slots; where there are none, it noted a fault
    ghost after: { Slots → Self → Self → Type 0 };

    /// A keyword.
    fn keyword(&mut self, word: &str)
        ensures { after (Some (named word.now ∷ [])) self.old self.new };

    /// A text that must be a word: a name, or a keyword.
    fn word(&mut self, text: &str)
        ensures { after (provided (is_word text.now) (named text.now ∷ [])) self.old self.new };

    /// A text that must be a name.
    fn name(&mut self, text: &str)
        ensures { after (provided (is_name text.now) (named text.now ∷ [])) self.old self.new };

    /// The name of a package in an import: names with slashes between them.
    fn package(&mut self, text: &str)
        ensures { after (provided (are_names (cut slash text.now)) (parted sign.Slash (cut slash text.now))) self.old self.new };

    /// The rule of a diagnostic: one word, or two with a `.` between them.
    fn rule(&mut self, text: &str)
        ensures { after (leaf_slots a_rule (text_label text.now) end) self.old self.new };

    /// A text that must be a number.
    fn number(&mut self, text: &str)
        ensures { after (provided (is_number text.now) (must (number_token text.now) ∷ [])) self.old self.new };

    /// A symbol.
    fn symbol(&mut self, sign: Symbol)
        ensures { after (Some (signed sign ∷ [])) self.old self.new };

    /// A symbol that may stand here.
    fn may(&mut self, sign: Symbol)
        ensures { after (Some (may (symbol_token sign) ∷ [])) self.old self.new };

    /// The bracket that opens a template list.
    fn open_list(&mut self)
        ensures { after (Some (must open_token ∷ [])) self.old self.new };

    /// The bracket that closes it.
    fn close_list(&mut self)
        ensures { after (Some (must close_token ∷ [])) self.old self.new };

    /// The selector `default` that is alone.
    fn default(&mut self)
        ensures { after (Some (alone ∷ [])) self.old self.new };

    /// No text says what is printed.
    fn refuse(&mut self, fault: Unwritable)
        ensures { after None self.old self.new };

    /// A blank.
    fn space(&mut self)
        ensures { after (Some []) self.old self.new };

    /// A new line.
    fn line(&mut self)
        ensures { after (Some []) self.old self.new };

    /// Lines begin further right from here on.
    fn indent(&mut self)
        ensures { after (Some []) self.old self.new };

    /// Lines begin further left from here on.
    fn outdent(&mut self)
        ensures { after (Some []) self.old self.new };

    ghost none: { (s : Self) → after (Some []) s s };

    ghost more: { (ss us : Slots) (a b c : Self) → after ss a b → after us b c → after (followed ss us) a c };
}
