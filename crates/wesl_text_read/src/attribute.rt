//! Reading attributes.
ghost use Rattle.std.specs.Prelude.{◌≡◌, [], None, codes, true};
ghost use Rattle.wesl_tree_syntax.specs.Tree.{attribute_node, attributes, branch, list};
ghost use Rattle.wesl_tree_syntax.specs.View.{attribute_view, attributes_tree, expression_tree, listed, operand_tree, optional as option_view, placed};
ghost use Rattle.wesl_text_form.specs.Productions.{a_bare_attribute, an_attribute, an_expression, commas, may_sym, nothing, own, sym};
ghost use Rattle.wesl_text_tokens.specs.Symbols.{look_up};
ghost use Rattle.wesl_text_tokens.specs.declared.symbol.Symbol.TheVariants as symbols;
ghost use Rattle.wesl_text_reading.specs.FirstTokens.{begins_sign, words_of_attributes};
ghost use Rattle.wesl_text_read.specs.AttributeWords.{attribute_text, operand_kind, operand_text, plain_kind};
ghost use Rattle.wesl_text_read.specs.Attributes.{attribute_at, run_at};
ghost use Rattle.wesl_text_tokens.specs.Views.{token_of};
ghost use Rattle.wesl_text_read.specs.First.{begins_next, is_end};
ghost use Rattle.wesl_text_read.specs.Leads.{Reads, ahead};
ghost use Rattle.wesl_text_read.specs.Levels.{inner};
ghost use Rattle.wesl_text_read.specs.Parts.{ReadsRow, may_at};

use crate::attribute_word::{AttributeWord, OperandWord, PlainWord, attribute_word};
use crate::path::is_sign;
use crate::reader::{Expected, Reader};
use crate::within::Within;
use wesl_text_tokens::{Symbol, Token};
use wesl_tree_syntax::{Attribute, AttributeNode, Attributes, ExpressionNode};

// The attribute of a word that has one operand.
fn with_operand(word: OperandWord, operand: ExpressionNode) -> Attribute
    ensures { attribute_view result ≡ operand_tree (operand_kind word) operand }
{
    match word {
        OperandWord::Align => Attribute::Align(operand),
        OperandWord::Binding => Attribute::Binding(operand),
        OperandWord::BlendSrc => Attribute::BlendSrc(operand),
        OperandWord::Group => Attribute::Group(operand),
        OperandWord::Id => Attribute::Id(operand),
        OperandWord::Location => Attribute::Location(operand),
        OperandWord::Size => Attribute::Size(operand),
        OperandWord::If => Attribute::If(operand),
        OperandWord::Elif => Attribute::Elif(operand),
    }
}

// The attribute of a word that has no operand.
fn plain_attribute(word: PlainWord) -> Attribute
    ensures { attribute_view result ≡ branch (plain_kind word) [] }
{
    match word {
        PlainWord::Const => Attribute::Const,
        PlainWord::Invariant => Attribute::Invariant,
        PlainWord::MustUse => Attribute::MustUse,
        PlainWord::Vertex => Attribute::Vertex,
        PlainWord::Fragment => Attribute::Fragment,
        PlainWord::Compute => Attribute::Compute,
        PlainWord::Publish => Attribute::Publish,
        PlainWord::Else => Attribute::Else,
    }
}

// Whether a list ends at a token that follows a comma.
fn is_end(token: Token<'_>) -> bool
    ensures { result ≡ is_end (token_of token.entry) }
{
    match token {
        Token::Symbol(Symbol::ParenRight) => true,
        Token::CloseList => true,
        _ => false,
    }
}

impl<'t> Reader<'t> {
    /// The attributes that come first.
    pub fn attributes(&mut self) -> Attributes
        ensures { Reads (run_at self.old.levels attributes an_attribute) (attributes_tree result) self.old self.new }
    {
        let mut attributes = Vec::new(self.alloc);
        let mut room = self.rest.len();
        'attributes: while self.begins_sign(Symbol::At) {
            if room == 0 {
                self.wrong(Expected::FewerLevels);
                return attributes;
            }
            room -= 1;
            let attribute = self.attribute();
            self.put(&mut attributes, attribute);
        }
        attributes
    }

    /// An attribute, which begins here.
    pub fn attribute(&mut self) -> AttributeNode
        requires { begins_sign symbols.At (ahead self.old) ≡ true }
        ensures { Reads (inner self.old.levels an_attribute)
            (placed attribute_view attribute_node result) self.old self.new }
    {
        let start = self.place();
        let node = self.bare_attribute();
        self.placed(start, node)
    }

    // The same without its span.
    fn bare_attribute(&mut self) -> Attribute
        requires { begins_sign symbols.At (ahead self.old) ≡ true }
        ensures { Reads (inner self.old.levels a_bare_attribute) (attribute_view result) self.old self.new }
    {
        self.step();
        match self.word_first() {
            Some(word) => {
                self.step();
                self.attribute_of(word)
            }
            None => {
                self.wrong(Expected::Name);
                Attribute::Const
            }
        }
    }

    // The attribute of this word, by what is behind the word.
    fn attribute_of(&mut self, word: &str) -> Attribute
        ensures { Reads (attribute_at self.old.levels word.now) (attribute_view result) self.old self.new }
    {
        match attribute_word(word) {
            Some(known) => self.known_attribute(known),
            None => self.custom(word),
        }
    }

    fn known_attribute(&mut self, word: AttributeWord) -> Attribute
        ensures { Reads (attribute_at self.old.levels (attribute_text word)) (attribute_view result) self.old self.new }
    {
        match word {
            AttributeWord::Operand(word) => self.operand_attribute(word),
            AttributeWord::Plain(word) => plain_attribute(word),
            AttributeWord::Builtin => self.builtin(),
            AttributeWord::Diagnostic => self.diagnostic(),
            AttributeWord::Interpolate => self.interpolate(),
            AttributeWord::WorkgroupSize => self.workgroup_size(),
        }
    }

    fn operand_attribute(&mut self, word: OperandWord) -> Attribute
        ensures { Reads (attribute_at self.old.levels (operand_text word)) (attribute_view result) self.old self.new }
    {
        let operand = self.operand_in_parentheses();
        with_operand(word, operand)
    }

    // An expression in parentheses, perhaps with a comma behind it.
    fn operand_in_parentheses(&mut self) -> ExpressionNode
        ensures { ReadsRow (sym symbols.ParenLeft (own an_expression (may_sym symbols.Comma (sym symbols.ParenRight nothing))))
            (expression_tree result) self.old self.new }
    {
        self.skip_sign(Symbol::ParenLeft);
        let operand = self.expression(Within::Anything);
        self.skip_comma();
        self.skip_sign(Symbol::ParenRight);
        operand
    }

    // `(word)`.
    fn builtin(&mut self) -> Attribute
        ensures { Reads (attribute_at self.old.levels (codes "builtin")) (attribute_view result) self.old self.new }
    {
        self.skip_sign(Symbol::ParenLeft);
        let name = self.word();
        self.skip_comma();
        self.skip_sign(Symbol::ParenRight);
        Attribute::Builtin(name)
    }

    // `(severity, rule)`.
    fn diagnostic(&mut self) -> Attribute
        ensures { Reads (attribute_at self.old.levels (codes "diagnostic")) (attribute_view result) self.old self.new }
    {
        self.skip_sign(Symbol::ParenLeft);
        let severity = self.word();
        self.skip_sign(Symbol::Comma);
        let rule = self.rule();
        self.skip_comma();
        self.skip_sign(Symbol::ParenRight);
        Attribute::Diagnostic { severity, rule }
    }

    // `(word)` or `(word, word)`.
    fn interpolate(&mut self) -> Attribute
        ensures { Reads (attribute_at self.old.levels (codes "interpolate")) (attribute_view result) self.old self.new }
    {
        self.skip_sign(Symbol::ParenLeft);
        let words = self.one_or_two();
        self.skip_sign(Symbol::ParenRight);
        Attribute::Interpolate(words)
    }

    // One size to three.
    fn workgroup_size(&mut self) -> Attribute
        ensures { Reads (attribute_at self.old.levels (codes "workgroup_size"))
            (attribute_view result) self.old self.new }
    {
        self.skip_sign(Symbol::ParenLeft);
        let x = self.expression(Within::Anything);
        let y = self.next_operand();
        let z = self.next_operand();
        self.skip_comma();
        self.skip_sign(Symbol::ParenRight);
        Attribute::WorkgroupSize { x, y, z }
    }

    // Whether a comma comes first, and something behind it that is no end.
    fn begins_next(&self) -> bool
        ensures { result ≡ begins_next (ahead self.now) }
    {
        match self.rest {
            [first, second, ..] => is_sign(first.token, Symbol::Comma) && !is_end(second.token),
            _ => false,
        }
    }

    // A comma and an expression, where they stand.
    fn next_operand(&mut self) -> Option<ExpressionNode>
        ensures { Reads (may_at self.old.levels (sym symbols.Comma (own an_expression nothing)))
            (option_view expression_tree result) self.old self.new }
    {
        if !self.begins_next() {
            return None;
        }
        self.skip_sign(Symbol::Comma);
        Some(self.expression(Within::Anything))
    }

    // The attribute of another word.
    fn custom(&mut self, word: &str) -> Attribute
        requires { look_up word.now words_of_attributes ≡ None }
        ensures { Reads (attribute_at self.old.levels word.now) (attribute_view result) self.old self.new }
    {
        let name = self.own(word);
        let arguments = self.optional_arguments();
        Attribute::Custom { name, arguments }
    }

    // Arguments in parentheses, where they stand.
    fn optional_arguments(&mut self) -> Option<Vec<ExpressionNode>>
        ensures { Reads (may_at self.old.levels
            (sym symbols.ParenLeft (commas list an_expression (sym symbols.ParenRight nothing))))
            (option_view (listed expression_tree list) result) self.old self.new }
    {
        if !self.begins_sign(Symbol::ParenLeft) {
            return None;
        }
        Some(self.arguments())
    }
}
