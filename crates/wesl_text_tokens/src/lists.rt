//! Which `<` and `>` are the brackets of template lists (WGSL, "Template Lists": the algorithm is the specification's).
ghost use Rattle.std.specs.Prelude.{◌≡◌, ◌+◌, ◌^◌, ◌<◌, ◌≤◌, [], length, drop, IfOk, OnOk, bytes_eq, codes};
ghost use Rattle.wesl_text_tokens.specs.Brackets.{at_greater, at_less, at_sign, brackets, known_behind, outside, sign_behind};
ghost use Rattle.wesl_text_tokens.specs.Pieces.{bits_of};
ghost use Rattle.wesl_text_tokens.specs.Symbols.{symbol_text};
ghost use Rattle.wesl_text_tokens.specs.Views.{known_of, pieces_of, sign_text, what_of};

use crate::piece::{Piece, What};
use crate::symbol::Symbol;
use std::alloc::{AllocError, Global};

/// A `<` that may open a list: which piece it is, and in how many `(` and `[` it stands.
#[derive(Clone, Copy, Drop)]
pub(crate) struct Pending {
    index: usize,
    depth: usize,
}

/// What is known of template lists behind some pieces.
#[derive(Drop)]
pub(crate) struct Lists {
    /// The `<` that may open a list, the newest last.
    pending: Vec<Pending>,
    /// How many `(` and `[` are open.
    depth: usize,
    behind_name: bool,
    /// The next piece belongs to the symbol before.
    is_passed: bool,
    /// The `<` that open lists, by the `>` that close them.
    pub(crate) opened: Vec<usize>,
    /// The `>` that close lists.
    pub(crate) closed: Vec<usize>,
}

/// The template lists among the pieces of a text.
pub(crate) fn lists_of(alloc: Global, pieces: &[Piece<'_>]) -> Result<Lists, AllocError>
    ensures { IfOk result (λ lists. known_of lists ≡ brackets (bits_of (pieces_of pieces.now))) }
{
    let mut lists = Lists {
        pending: Vec::new(alloc),
        depth: 0,
        behind_name: false,
        is_passed: false,
        opened: Vec::new(alloc),
        closed: Vec::new(alloc),
    };
    for index in 0..pieces.len() {
        lists.piece(index, pieces[index].what, sign_behind(pieces, index))?;
    }
    Ok(lists)
}

/// The sign right behind a piece.
fn sign_behind(pieces: &[Piece<'_>], index: usize) -> Option<Symbol>
    requires { index < length pieces.now }
    ensures { sign_text result ≡ sign_behind (drop (index + 1) (bits_of (pieces_of pieces.now))) }
{
    if index + 1 == pieces.len() {
        return None;
    }
    let next = pieces[index + 1];
    if next.start != pieces[index].end {
        return None;
    }
    match next.what {
        What::Sign(symbol) => Some(symbol),
        What::Name(_) => None,
        What::Number(_) => None,
    }
}

/// Whether a symbol is `=`.
fn is_equal(symbol: Option<Symbol>) -> bool
    ensures { result ≡ bytes_eq (sign_text symbol) (codes "=") }
{
    match symbol {
        Some(Symbol::Equal) => true,
        _ => false,
    }
}

/// Whether a symbol is `<`.
fn is_less(symbol: Option<Symbol>) -> bool
    ensures { result ≡ bytes_eq (sign_text symbol) (codes "<") }
{
    match symbol {
        Some(Symbol::Less) => true,
        _ => false,
    }
}

impl Lists {
    /// Goes past a piece, behind which a sign stands.
    fn piece(
        &mut self,
        index: usize,
        what: What<'_>,
        next: Option<Symbol>,
    ) -> Result<(), AllocError>
        requires fits { index + 1 < 2 ^ 64 }
        requires depth { self.old.depth ≤ index }
        ensures known { OnOk result (known_of self.new ≡ known_behind index (what_of what.entry) (sign_text next) (known_of self.old)) }
        ensures depth { OnOk result (self.new.depth ≤ index + 1) }
    {
        let was_name = self.behind_name;
        self.behind_name = false;
        if self.is_passed {
            self.is_passed = false;
            return Ok(());
        }
        match what {
            What::Name(_) => {
                self.behind_name = true;
                Ok(())
            }
            What::Number(_) => Ok(()),
            What::Sign(symbol) => self.sign(index, was_name, symbol, next),
        }
    }

    /// Goes past a sign, behind a name or another piece.
    fn sign(
        &mut self,
        index: usize,
        was_name: bool,
        symbol: Symbol,
        next: Option<Symbol>,
    ) -> Result<(), AllocError>
        requires fits { index + 1 < 2 ^ 64 }
        requires depth { self.old.depth ≤ index }
        ensures known { OnOk result (known_of self.new ≡ at_sign index was_name (symbol_text symbol) (sign_text next) (known_of self.old)) }
        ensures depth { OnOk result (self.new.depth ≤ index + 1) }
    {
        match symbol {
            Symbol::Less => self.less(index, was_name, is_less(next), is_equal(next)),
            Symbol::Greater => self.greater(index, is_equal(next)),
            Symbol::ParenLeft | Symbol::BracketLeft => {
                self.depth += 1;
                Ok(())
            }
            Symbol::ParenRight | Symbol::BracketRight => {
                self.leave();
                self.depth = self.depth.saturating_sub(1);
                Ok(())
            }
            Symbol::Bang => {
                if is_equal(next) {
                    self.is_passed = true;
                }
                Ok(())
            }
            Symbol::Equal => {
                if is_equal(next) {
                    self.is_passed = true;
                } else {
                    self.end();
                }
                Ok(())
            }
            Symbol::AndAnd | Symbol::OrOr => {
                self.leave();
                Ok(())
            }
            Symbol::Semicolon | Symbol::BraceLeft | Symbol::Colon => {
                self.end();
                Ok(())
            }
            _ => Ok(()),
        }
    }

    /// Goes past a `<`.
    fn less(
        &mut self,
        index: usize,
        was_name: bool,
        is_less: bool,
        is_equal: bool,
    ) -> Result<(), AllocError>
        ensures known { OnOk result (known_of self.new ≡ at_less index was_name is_less is_equal (known_of self.old)) }
        ensures depth { self.new.depth ≡ self.old.depth }
    {
        if is_equal {
            self.is_passed = true;
            return Ok(());
        }
        if !was_name {
            return Ok(());
        }
        if is_less {
            self.is_passed = true;
            return Ok(());
        }
        let depth = self.depth;
        self.pending.push(Pending { index, depth })?;
        Ok(())
    }

    /// Goes past a `>`.
    fn greater(&mut self, index: usize, is_equal: bool) -> Result<(), AllocError>
        ensures known { OnOk result (known_of self.new ≡ at_greater index is_equal (known_of self.old) (known_of self.old).pending) }
        ensures depth { self.new.depth ≡ self.old.depth }
    {
        match self.pending.last().copied() {
            Some(newest) => {
                if newest.depth != self.depth {
                    self.is_passed = is_equal;
                    return Ok(());
                }
                self.pending.pop();
                self.opened.push(newest.index)?;
                self.closed.push(index)?;
                Ok(())
            }
            None => {
                self.is_passed = is_equal;
                Ok(())
            }
        }
    }

    /// No `<` that stands in as many `(` and `[` opens a list.
    fn leave(&mut self)
        ensures known { known_of self.new ≡ record (known_of self.old) { pending = outside self.old.depth (known_of self.old).pending } }
        ensures depth { self.new.depth ≡ self.old.depth }
    {
        'newest: while let Some(newest) = self.pending.last().copied() {
            if newest.depth < self.depth {
                return;
            }
            self.pending.pop();
        }
    }

    /// No `<` before opens a list.
    fn end(&mut self)
        ensures known { known_of self.new ≡ record (known_of self.old) { pending = []; depth = 0 } }
        ensures depth { self.new.depth ≡ 0 }
    {
        self.pending.clear();
        self.depth = 0;
    }
}
