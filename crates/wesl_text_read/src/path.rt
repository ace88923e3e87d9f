//! Reading the paths that names may have before them.
ghost use Rattle.std.specs.Prelude.{◌≡◌, ◌∷◌, Some, false, map, string_bytes, true};
ghost use Rattle.wesl_tree_names.specs.Path.{origin_view, path_view};
ghost use Rattle.wesl_tree_syntax.specs.Tree.{path};
ghost use Rattle.wesl_tree_syntax.specs.View.{boxed_path, optional as option_view};
ghost use Rattle.wesl_text_tokens.specs.Tokens.{symbol};
ghost use Rattle.wesl_text_tokens.specs.Views.{token_of};
ghost use Rattle.wesl_text_tokens.specs.declared.symbol.Symbol.TheVariants as symbols;
ghost use Rattle.wesl_text_form.specs.Productions.{a_path, leaf, nothing};
ghost use Rattle.wesl_text_form.specs.Slots.{same_token};
ghost use Rattle.wesl_text_reading.specs.FirstTokens.{begins_path};
ghost use Rattle.wesl_text_reading.specs.Leaves.{path_behind, read_leaf};
ghost use Rattle.wesl_text_read.specs.First.{begins_super, is_word, read_origin, read_steps, supers};
ghost use Rattle.wesl_text_read.specs.Leads.{Reads, ReadsLabel, ReadsOrigin, ReadsTexts, Tells, ahead};
ghost use Rattle.wesl_text_read.specs.Parts.{may_at};

use crate::reader::{Expected, Reader};
use crate::words::is_free;
use wesl_text_tokens::{Symbol, Token};
use wesl_tree_names::{ModulePath, PathOrigin};

/// Whether a token is this symbol.
pub fn is_sign(token: Token<'_>, sign: Symbol) -> bool
    ensures { result ≡ same_token (symbol sign) (token_of token.entry) }
{
    match token {
        Token::Symbol(given) => sign == given,
        _ => false,
    }
}

// Whether a token is a word.
fn is_word(token: Token<'_>) -> bool
    ensures { result ≡ is_word (token_of token.entry) }
{
    match token {
        Token::Name(_) => true,
        _ => false,
    }
}

impl<'t> Reader<'t> {
    /// Whether a path begins: a word, and `::` behind it.
    pub fn begins_path(&self) -> bool
        ensures { result ≡ begins_path false (ahead self.now) }
    {
        match self.rest {
            [first, second, ..] => is_word(first.token)
                && is_sign(second.token, Symbol::ColonColon),
            _ => false,
        }
    }

    // Whether `super` comes first, and `::` behind it.
    fn begins_super(&self) -> bool
        ensures { result ≡ begins_super (ahead self.now) }
    {
        match self.word_first() {
            Some(word) => word == "super" && self.begins_path(),
            None => false,
        }
    }

    /// A path, which begins here.
    pub fn path(&mut self) -> ModulePath
        requires { begins_path false (ahead self.old) ≡ true }
        ensures { ReadsLabel (read_leaf (a_path false)) (path (path_view result)) self.old self.new }
    {
        match self.word_first() {
            Some(word) => {
                self.step();
                self.step();
                self.path_behind(word)
            }
            None => ModulePath::new_root(self.alloc),
        }
    }

    // A path that has this word before its first `::`, by what is behind.
    fn path_behind(&mut self, word: &str) -> ModulePath
        ensures { ReadsLabel (λ ts. path_behind false word.now (symbol symbols.ColonColon ∷ ts))
            (path (path_view result)) self.old self.new }
    {
        let origin = self.origin(word);
        let components = self.steps();
        ModulePath::new(origin, components)
    }

    // Where a path begins that has this word before its first `::`.
    fn origin(&mut self, word: &str) -> PathOrigin
        ensures { ReadsOrigin (read_origin word.now) (origin_view result) self.old self.new }
    {
        if word == "package" {
            return PathOrigin::Absolute;
        }
        if word == "self" {
            return PathOrigin::Relative(0);
        }
        if word == "super" {
            return PathOrigin::Relative(self.supers());
        }
        if is_free(word) {
            return PathOrigin::Package(self.own(word));
        }
        self.wrong(Expected::Name);
        PathOrigin::Absolute
    }

    // How many levels up a path leads that begins with `super`: one, and one more for each that comes.
    fn supers(&mut self) -> usize
        ensures { Tells (supers 1) result self.old self.new }
    {
        let mut up = 1;
        'supers: while self.begins_super() {
            self.step();
            self.step();
            up += 1;
        }
        up
    }

    // Names, each with `::` behind it.
    fn steps(&mut self) -> Vec<String>
        ensures { ReadsTexts read_steps (map string_bytes result.items) self.old self.new }
    {
        let mut names = Vec::new(self.alloc);
        'steps: while self.begins_path() {
            let name = self.name();
            self.step();
            self.put(&mut names, name);
        }
        names
    }

    /// A path, where one begins; none where memory is refused for it.
    pub fn optional_path(&mut self) -> Option<Box<ModulePath>>
        ensures { Reads (may_at self.old.levels (leaf (a_path false) nothing))
            (option_view boxed_path result) self.old self.new }
    {
        if !self.begins_path() {
            return None;
        }
        let path = self.path();
        self.boxed(path)
    }
}
