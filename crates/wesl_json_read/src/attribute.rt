//! Reading attributes.
ghost use Rattle.std.specs.Prelude.{◌≡◌, [], ◌∷◌, None};
ghost use Rattle.serde_json.specs.Find.{as_str};
ghost use Rattle.wesl_json_form.specs.View.{borrowed_view};
ghost use Rattle.wesl_tree_syntax.specs.Tree.{branch};
ghost use Rattle.wesl_tree_syntax.specs.View.{attribute_view, attributes_tree, expression_tree};
ghost use Rattle.wesl_json_form.specs.Schema.{an_attribute, node as node_form};
ghost use Rattle.wesl_json_read.specs.Forms.{operand_kind, plain_kind, some_attributes};
ghost use Rattle.wesl_json_read.specs.Gives.{placed_attribute};
ghost use Rattle.wesl_json_read.specs.Noted.{NotesForm, NotesMany};
ghost use Rattle.wesl_json_read.specs.NotedNodes.{NotesAttribute, NotesAttributeWord};
ghost use Rattle.wesl_json_read.specs.declared.words.AttributeWord.TheVariants as attribs;

use crate::expression::unplaced;
use crate::leaves::TextKind;
use crate::reader::Reader;
use crate::words::{AttributeWord, OperandWord, PlainWord, attribute_word_in, plain_word};
use wesl_json_form::BorrowedValue;
use wesl_tree_syntax::{Attribute, AttributeNode, Attributes, ExpressionNode, Spanned};

impl Reader {
    /// The attributes at `key`, a list.
    pub fn attributes(&mut self, value: &BorrowedValue<'_>, key: &str) -> Attributes
        ensures { NotesMany key.now some_attributes (borrowed_view value.now) (attributes_tree result) self.old self.new }
    {
        let Some(items) = self.list(value, key) else {
            return Vec::new(self.alloc);
        };
        let mut attributes = self.room(items.len());
        for (index, item) in items.iter().enumerate() {
            if !self.is_stopped() {
                let attribute = self.attribute(item);
                self.put(&mut attributes, index, attribute);
            }
        }
        self.within(key);
        attributes
    }

    fn attribute(&mut self, value: &BorrowedValue<'_>) -> AttributeNode
        ensures { NotesForm (node_form an_attribute) (borrowed_view value.now) (placed_attribute result) self.old self.new }
    {
        if let Some(text) = value.as_str() {
            return match plain_word(text) {
                Some(word) => unplaced(attribute_of_plain(word)),
                None => {
                    self.wrong();
                    unplaced(Attribute::Const)
                }
            };
        }
        let word = self.attribute_word(value);
        Spanned {
            span: self.span(value),
            node: self.worded_attribute(value, word),
        }
    }

    // The word at `k`, of a value that is no text.
    fn attribute_word(&mut self, value: &BorrowedValue<'_>) -> AttributeWord
        requires { as_str (borrowed_view value.now) ≡ None }
        ensures { NotesAttributeWord (borrowed_view value.now) result self.old self.new }
    {
        let Some(word) = self.required(value, "k") else {
            return AttributeWord::Builtin;
        };
        match attribute_word_in(self.spans, word) {
            Some(word) => word,
            None => {
                self.wrong();
                self.within("k");
                AttributeWord::Builtin
            }
        }
    }

    // The attribute that an object with this word is, but for its span.
    fn worded_attribute(&mut self, value: &BorrowedValue<'_>, word: AttributeWord) -> Attribute
        ensures { NotesAttribute word (borrowed_view value.now) (attribute_view result) self.old self.new }
    {
        match word {
            AttributeWord::Operand(word) => {
                self.keys(value, self.spans, &["k", "expr"]);
                attribute_of(word, self.expression_at(value, "expr"))
            }
            AttributeWord::WorkgroupSize => self.workgroup_size(value),
            AttributeWord::Builtin => {
                self.keys(value, self.spans, &["k", "name"]);
                Attribute::Builtin(self.text(value, "name", TextKind::Name))
            }
            AttributeWord::Interpolate => {
                self.keys(value, self.spans, &["k", "names"]);
                Attribute::Interpolate(self.names(value, "names"))
            }
            AttributeWord::Diagnostic => self.diagnostic(value),
            AttributeWord::Custom => self.custom(value),
            AttributeWord::Plain(word) => {
                self.keys(value, self.spans, &["k"]);
                attribute_of_plain(word)
            }
        }
    }

    fn workgroup_size(&mut self, value: &BorrowedValue<'_>) -> Attribute
        ensures { NotesAttribute attribs.WorkgroupSize (borrowed_view value.now) (attribute_view result) self.old self.new }
    {
        self.keys(value, self.spans, &["k", "x", "y", "z"]);
        Attribute::WorkgroupSize {
            x: self.expression_at(value, "x"),
            y: self.optional_expression(value, "y"),
            z: self.optional_expression(value, "z"),
        }
    }

    fn diagnostic(&mut self, value: &BorrowedValue<'_>) -> Attribute
        ensures { NotesAttribute attribs.Diagnostic (borrowed_view value.now) (attribute_view result) self.old self.new }
    {
        self.keys(value, self.spans, &["k", "severity", "rule"]);
        Attribute::Diagnostic {
            severity: self.text(value, "severity", TextKind::Any),
            rule: self.text(value, "rule", TextKind::Any),
        }
    }

    fn custom(&mut self, value: &BorrowedValue<'_>) -> Attribute
        ensures { NotesAttribute attribs.Custom (borrowed_view value.now) (attribute_view result) self.old self.new }
    {
        self.keys(value, self.spans, &["k", "name", "args"]);
        Attribute::Custom {
            name: self.text(value, "name", TextKind::Name),
            arguments: self.optional_expressions(value, "args"),
        }
    }
}

fn attribute_of_plain(word: PlainWord) -> Attribute
    ensures { attribute_view result ≡ branch (plain_kind word) [] }
{
    match word {
        PlainWord::Const => Attribute::Const,
        PlainWord::Invariant => Attribute::Invariant,
        PlainWord::MustUse => Attribute::MustUse,
        PlainWord::Vertex => Attribute::Vertex,
        PlainWord::Fragment => Attribute::Fragment,
        PlainWord::Compute => Attribute::Compute,
        PlainWord::Publish => Attribute::Publish,
        PlainWord::Else => Attribute::Else,
    }
}

fn attribute_of(word: OperandWord, operand: ExpressionNode) -> Attribute
    ensures { attribute_view result ≡ branch (operand_kind word) (expression_tree operand ∷ []) }
{
    match word {
        OperandWord::Align => Attribute::Align(operand),
        OperandWord::Binding => Attribute::Binding(operand),
        OperandWord::BlendSrc => Attribute::BlendSrc(operand),
        OperandWord::Group => Attribute::Group(operand),
        OperandWord::Id => Attribute::Id(operand),
        OperandWord::Location => Attribute::Location(operand),
        OperandWord::Size => Attribute::Size(operand),
        OperandWord::If => Attribute::If(operand),
        OperandWord::Elif => Attribute::Elif(operand),
    }
}
