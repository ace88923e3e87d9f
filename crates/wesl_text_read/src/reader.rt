//! What reads tokens: a cursor that notes its first fault.
ghost use Rattle.std.specs.Prelude.{◌≡◌, ◌++◌, ◌∷◌, [], Some, None, IfNone, IfSome, option_map, map, true, false};
ghost use Rattle.std.specs.Box.{box_value};
ghost use Rattle.wesl_tree_interner.specs.Interned.{texts_of};
ghost use Rattle.wesl_text_tokens.specs.Tokens.{symbol, open_list, close_list};
ghost use Rattle.wesl_text_tokens.specs.Views.{token_of};
ghost use Rattle.wesl_text_form.specs.Slots.{behind_token, comes_first};
ghost use Rattle.wesl_text_reading.specs.FirstTokens.{begins_sign, behind_first};
ghost use Rattle.wesl_text_read.specs.First.{number_first, sign_first};
ghost use Rattle.wesl_text_read.specs.Leads.{Keeps, Refuses, Skips, Stops, ahead};
ghost use Rattle.wesl_text_read.specs.declared.reader.Fault.TheVariants as faults;

use std::alloc::Global;
use wesl_text_tokens::{PlacedToken, Symbol, Token};
use wesl_tree_interner::Interner;
use wesl_tree_names::Span;
use wesl_tree_syntax::Spanned;

/// What should have stood.
#[derive(Clone, Copy, Drop)]
pub enum Expected {
    /// this symbol
    Symbol(Symbol),
    /// the bracket that opens a template list
    OpenList,
    /// the bracket that closes one
    CloseList,
    /// a name that is declared or used
    Name,
    /// an expression
    Expression,
    /// a statement
    Statement,
    /// a declaration
    Declaration,
    /// what may be assigned to
    Target,
    /// a selector of a `switch`
    Selector,
    /// a statement that may be a part of a `for`
    ForPart,
    /// a member of a structure
    Member,
    /// what an import brings in
    Import,
    /// something that is nested less deep
    FewerLevels,
}

/// What is wrong with what is read.
#[derive(Clone, Copy, Drop)]
pub enum Fault<'t> {
    /// Memory was refused.
    Memory,
    /// The text says no such node.
    Text {
        /// where the token begins that should not stand there, or where the text ends
        place: u32,
        /// what should have stood
        expected: Expected,
        /// the token, if there is one
        found: Option<Token<'t>>,
    },
}

/// Reads the nodes of a tree from tokens.
///
/// The first fault is noted: from then on there are no tokens, and what is read stands for nothing.
#[derive(Drop)]
pub struct Reader<'t> {
    /// where the nodes are made
    pub alloc: Global,
    /// the tokens that are not read yet
    pub rest: &'t [PlacedToken<'t>],
    /// where the token that was read last ends
    pub finish: u32,
    /// where the text ends
    pub end: u32,
    /// the names met so far
    pub names: Interner,
    /// how many levels of nodes may still be nested
    pub levels: usize,
    /// the first fault
    pub fault: Option<Fault<'t>>,
}

impl<'t> Reader<'t> {
    /// Nothing is read yet of the tokens of a text that ends at `end`.
    pub fn new(alloc: Global, tokens: &'t [PlacedToken<'t>], end: u32, levels: usize) -> Reader<'t>
        ensures ahead { ahead result ≡ map (λ p. token_of p.token) tokens.now }
        ensures names { texts_of result.names ≡ [] }
        ensures levels { result.levels ≡ levels }
        ensures fault { result.fault ≡ None }
    {
        Reader {
            alloc,
            rest: tokens,
            finish: 0,
            end,
            names: Interner::new(alloc),
            levels,
            fault: None,
        }
    }

    /// Notes a fault, where none was noted before.
    pub fn note(&mut self, fault: Fault<'t>)
        ensures { Stops fault.entry self.old self.new }
    {
        if self.fault.is_none() {
            self.fault = Some(fault);
        }
        self.rest = &[];
    }

    /// Notes that the first token should not stand there.
    pub fn wrong(&mut self, expected: Expected)
        ensures { Refuses self.old self.new }
    {
        let (place, found) = match self.rest.first() {
            Some(first) => (first.start, Some(first.token)),
            None => (self.end, None),
        };
        self.note(Fault::Text {
            place,
            expected,
            found,
        });
    }

    /// Notes that the first token should not stand there, where that is so.
    pub fn wrong_if(&mut self, is_wrong: bool, expected: Expected)
        ensures refuses { is_wrong ≡ true → Refuses self.old self.new }
        ensures same { is_wrong ≡ false → self.new ≡ self.old }
    {
        if is_wrong {
            self.wrong(expected);
        }
    }

    /// The symbol that comes first, if one does.
    pub fn sign_first(&self) -> Option<Symbol>
        ensures { result ≡ sign_first (ahead self.now) }
    {
        match self.rest {
            [first, ..] => match first.token {
                Token::Symbol(sign) => Some(sign),
                _ => None,
            },
            [] => None,
        }
    }

    /// Whether this symbol comes first.
    pub fn begins_sign(&self, sign: Symbol) -> bool
        ensures { result ≡ begins_sign sign (ahead self.now) }
    {
        match self.sign_first() {
            Some(given) => sign == given,
            None => false,
        }
    }

    /// The number that comes first, if one does.
    pub fn number_first(&self) -> Option<&'t str>
        ensures { option_map (λ t. t.now) result ≡ number_first (ahead self.now) }
    {
        match self.rest {
            [first, ..] => match first.token {
                Token::Number(number) => Some(number),
                _ => None,
            },
            [] => None,
        }
    }

    /// Whether a template list opens.
    pub fn opens_list(&self) -> bool
        ensures { result ≡ comes_first open_list (ahead self.now) }
    {
        match self.rest {
            [first, ..] => match first.token {
                Token::OpenList => true,
                _ => false,
            },
            [] => false,
        }
    }

    /// Whether a template list closes.
    pub fn closes_list(&self) -> bool
        ensures { result ≡ comes_first close_list (ahead self.now) }
    {
        match self.rest {
            [first, ..] => match first.token {
                Token::CloseList => true,
                _ => false,
            },
            [] => false,
        }
    }

    /// Where the first token begins, or where the text ends.
    pub fn place(&self) -> u32 {
        match self.rest.first() {
            Some(first) => first.start,
            None => self.end,
        }
    }

    /// Goes on behind the first token.
    pub fn step(&mut self)
        ensures skips { Skips (λ ts. Some (behind_first ts)) self.old self.new }
        ensures ahead { ahead self.new ≡ behind_first (ahead self.old) }
    {
        if let [first, rest @ ..] = self.rest {
            self.finish = first.end;
            self.rest = rest;
        }
    }

    /// Goes on behind a symbol, which must come first.
    pub fn skip_sign(&mut self, sign: Symbol)
        ensures { Skips (behind_token (symbol sign)) self.old self.new }
    {
        if self.begins_sign(sign) {
            self.step();
        } else {
            self.wrong(Expected::Symbol(sign));
        }
    }

    /// Goes on behind the bracket that closes a template list, which must come first.
    pub fn skip_close(&mut self)
        ensures { Skips (behind_token close_list) self.old self.new }
    {
        if self.closes_list() {
            self.step();
        } else {
            self.wrong(Expected::CloseList);
        }
    }

    /// A node that begins at a place and ends where the last token did.
    pub fn placed<T>(&self, start: u32, node: T) -> Spanned<T>
        ensures { result.node ≡ node }
    {
        Spanned {
            node,
            span: Span {
                start,
                end: self.finish,
            },
        }
    }

    /// A part in a box; none where memory is refused, which is noted.
    pub fn boxed<T: Drop>(&mut self, part: T) -> Option<Box<T>>
        ensures same { IfSome result (λ b. (box_value b ≡ part) × (self.new ≡ self.old)) }
        ensures refused { IfNone result (Stops faults.Memory self.old self.new) }
    {
        match Box::new(self.alloc, part) {
            Ok(held) => Some(held),
            Err(_) => {
                self.note(Fault::Memory);
                None
            }
        }
    }

    /// Adds an item to a list.
    pub fn put<T: Drop>(&mut self, list: &mut Vec<T>, item: T)
        ensures put { self.new.fault ≡ None → list.new.items ≡ list.old.items ++ item ∷ [] }
        ensures keeps { Keeps self.old self.new }
    {
        if list.push(item).is_err() {
            self.note(Fault::Memory);
        }
    }
}
