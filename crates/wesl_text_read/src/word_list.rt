//! Reading words that stand for no declaration, one and several.
ghost use Rattle.std.specs.Prelude.{◌≡◌, ◌++◌, ◌∷◌, IfOk, Some, length, map, option_map, string_bytes};
ghost use Rattle.wesl_tree_syntax.specs.Tree.{text, texts};
ghost use Rattle.wesl_text_form.specs.Productions.{a_rule, a_word, one_or_two};
ghost use Rattle.wesl_text_form.specs.Spelling.{dot, is_one_or_two};
ghost use Rattle.wesl_text_reading.specs.Leaves.{read_leaf, words};
ghost use Rattle.wesl_text_read.specs.First.{behind_comma, part_first, read_rule};
ghost use Rattle.wesl_text_read.specs.Leads.{Makes, ReadsLabel, ReadsText, ReadsTexts, Tells, ahead};

use crate::reader::{Expected, Fault, Reader};
use std::alloc::{AllocError, Global};
use wesl_text_tokens::{Symbol, Token};

// Whether there is one word, or two.
fn are_one_or_two(words: &Vec<String>) -> bool
    ensures { result ≡ is_one_or_two (length words.now.items) }
{
    words.len() == 1 || words.len() == 2
}

// Two words with a `.` between. Refused for want of memory alone.
fn dotted(alloc: Global, word: &str, part: &str) -> Result<String, AllocError>
    ensures { IfOk result (λ text. string_bytes text ≡ word.now ++ dot ∷ part.now) }
{
    let mut text = String::from_str(alloc, word)?;
    text.push('.')?;
    text.push_str(part)?;
    Ok(text)
}

impl<'t> Reader<'t> {
    /// Goes on behind a comma, where one comes first. Whether it did.
    pub fn skip_comma(&mut self) -> bool
        ensures { Tells behind_comma result self.old self.new }
    {
        if !self.begins_sign(Symbol::Comma) {
            return false;
        }
        self.step();
        true
    }

    /// A word, by its text.
    pub fn word(&mut self) -> String
        ensures { ReadsLabel (read_leaf a_word) (text (string_bytes result)) self.old self.new }
    {
        match self.word_first() {
            Some(word) => {
                self.step();
                self.own(word)
            }
            None => {
                self.wrong(Expected::Name);
                String::new(self.alloc)
            }
        }
    }

    /// Words with commas between, and perhaps one behind.
    pub fn words(&mut self) -> Vec<String>
        ensures { ReadsTexts (λ ts. Some (words ts)) (map string_bytes result.items) self.old self.new }
    {
        let mut words = Vec::new(self.alloc);
        'words: while let Some(word) = self.word_first() {
            let text = self.own(word);
            self.put(&mut words, text);
            self.step();
            if !self.skip_comma() {
                return words;
            }
        }
        words
    }

    /// One word, or two.
    pub fn one_or_two(&mut self) -> Vec<String>
        ensures { ReadsLabel (read_leaf one_or_two) (texts (map string_bytes result.items)) self.old self.new }
    {
        let words = self.words();
        let is_wrong = !are_one_or_two(&words);
        self.wrong_if(is_wrong, Expected::Name);
        words
    }

    // The word behind a `.`, where both come first.
    fn part_first(&self) -> Option<&'t str>
        ensures { option_map (λ t. t.now) result ≡ part_first (ahead self.now) }
    {
        match self.rest {
            [first, second, ..] => match (first.token, second.token) {
                (Token::Symbol(Symbol::Period), Token::Name(part)) => Some(part),
                _ => None,
            },
            _ => None,
        }
    }

    /// The name of a rule: a word, or two with a `.` between.
    pub fn rule(&mut self) -> String
        ensures { ReadsLabel (read_leaf a_rule) (text (string_bytes result)) self.old self.new }
    {
        match self.word_first() {
            Some(word) => {
                self.step();
                self.rule_of(word)
            }
            None => {
                self.wrong(Expected::Name);
                String::new(self.alloc)
            }
        }
    }

    // The name of a rule that begins with this word, by what is behind the word.
    fn rule_of(&mut self, word: &str) -> String
        ensures { ReadsText (read_rule word.now) (string_bytes result) self.old self.new }
    {
        match self.part_first() {
            Some(part) => {
                self.step();
                self.step();
                self.dotted(word, part)
            }
            None => self.own(word),
        }
    }

    // Two words with a `.` between, as a text of its own.
    fn dotted(&mut self, word: &str, part: &str) -> String
        ensures { Makes (word.now ++ dot ∷ part.now) (string_bytes result) self.old self.new }
    {
        match dotted(self.alloc, word, part) {
            Ok(text) => text,
            Err(_) => {
                self.note(Fault::Memory);
                String::new(self.alloc)
            }
        }
    }
}
