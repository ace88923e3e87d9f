//! Reading names and texts.
ghost use Rattle.std.specs.Prelude.{◌≡◌, IfNone, IfSome, None, option_map, string_bytes};
ghost use Rattle.wesl_tree_syntax.specs.Tree.{Role, ident, text};
ghost use Rattle.wesl_text_form.specs.Productions.{a_name, an_ident};
ghost use Rattle.wesl_text_reading.specs.Leaves.{read_leaf};
ghost use Rattle.wesl_text_read.specs.First.{read_free, truth_first, truth_of, word_first};
ghost use Rattle.wesl_text_read.specs.Leads.{Makes, Numbers, ReadsLabel, ReadsText, Refuses, ahead};

use crate::reader::{Expected, Fault, Reader};
use crate::words::is_free;
use wesl_text_tokens::Token;
use wesl_tree_names::Ident;

// The truth value that a word is, if it is one.
fn truth_of(word: &str) -> Option<bool>
    ensures { result ≡ truth_of word.now }
{
    match word {
        "true" => Some(true),
        "false" => Some(false),
        _ => None,
    }
}

impl<'t> Reader<'t> {
    /// The word that comes first, if one does.
    pub fn word_first(&self) -> Option<&'t str>
        ensures { option_map (λ t. t.now) result ≡ word_first (ahead self.now) }
    {
        match self.rest {
            [first, ..] => match first.token {
                Token::Name(word) => Some(word),
                _ => None,
            },
            [] => None,
        }
    }

    /// The truth value that comes first, if one does.
    pub fn truth_first(&self) -> Option<bool>
        ensures { result ≡ truth_first (ahead self.now) }
    {
        match self.word_first() {
            Some(word) => truth_of(word),
            None => None,
        }
    }

    // The word that comes first, which may be declared and used as a name; none where a fault is noted.
    fn free_name(&mut self) -> Option<&'t str>
        ensures read { IfSome result (λ t. ReadsText read_free t.now self.old self.new) }
        ensures none { IfNone result (Refuses self.old self.new) }
        ensures nothing { IfNone result (read_free (ahead self.old) ≡ None) }
    {
        match self.word_first() {
            Some(word) => {
                if is_free(word) {
                    self.step();
                    Some(word)
                } else {
                    self.wrong(Expected::Name);
                    None
                }
            }
            None => {
                self.wrong(Expected::Name);
                None
            }
        }
    }

    // The number of a name, the next one where it is met for the first time.
    fn number(&mut self, name: &str) -> Ident
        ensures { Numbers name.now result.0 self.old self.new }
    {
        match self.names.number(name) {
            Ok(id) => Ident(id.0),
            Err(_) => {
                self.note(Fault::Memory);
                Ident(0)
            }
        }
    }

    /// A text of its own.
    pub fn own(&mut self, given: &str) -> String
        ensures { Makes given.now (string_bytes result) self.old self.new }
    {
        match String::from_str(self.alloc, given) {
            Ok(own) => own,
            Err(_) => {
                self.note(Fault::Memory);
                String::new(self.alloc)
            }
        }
    }

    /// A name that is declared or used, by its number, in any role.
    pub fn ident(&mut self) -> Ident
        ensures { (role : Role) → ReadsLabel (read_leaf (an_ident role)) (ident role result.0) self.old self.new }
    {
        match self.free_name() {
            Some(name) => self.number(name),
            None => Ident(0),
        }
    }

    /// A name that stands for no declaration, by its text.
    pub fn name(&mut self) -> String
        ensures { ReadsLabel (read_leaf a_name) (text (string_bytes result)) self.old self.new }
    {
        match self.free_name() {
            Some(name) => self.own(name),
            None => String::new(self.alloc),
        }
    }
}
