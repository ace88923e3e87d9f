//! The numbers of light values.
ghost use Rattle.std.specs.Prelude.{◌≡◌, true, pos, int_lt, option_map};
ghost use Rattle.serde_json.specs.Data.{unsigned, negative};
ghost use Rattle.serde_json.specs.Find.{as_u64, is_float, of_float};
ghost use Rattle.wesl_json_form.specs.Number.{is_valid};

use std::alloc::AllocError;

/// A number as JSON reads it.
#[derive(Copy, Drop)]
pub enum NumberKind {
    /// A whole number from 0 on.
    Whole(u64),
    /// A whole number below 0.
    Negative(i64),
    /// Any other number.
    Float(f64),
}

// By hand, since a derived copy asks each part for one, which may be refused.
impl Clone for NumberKind {
    ghost use Rattle.std.specs.Prelude.{⊤};

    ghost is_clone = { λ old new. new ≡ old };

    ghost is_infallible = { λ _. ⊤ };

    fn clone(&self) -> Result<NumberKind, AllocError> {
        Ok(*self)
    }
}

/// A whole number of 64 bits, or a finite float.
#[derive(Copy, Drop)]
pub struct Number {
    pub kind: NumberKind,
    pub ghost valid: { is_valid kind ≡ true },
}

impl Clone for Number {
    ghost use Rattle.std.specs.Prelude.{⊤};

    ghost is_clone = { λ old new. new ≡ old };

    ghost is_infallible = { λ _. ⊤ };

    fn clone(&self) -> Result<Number, AllocError> {
        Ok(*self)
    }
}

impl Number {
    ghost use Rattle.wesl_json_form.specs.View.{number_view};

    /// A whole number from 0 on.
    pub fn whole(number: u64) -> Number
        ensures { number_view result ≡ unsigned number }
    {
        Number {
            kind: NumberKind::Whole(number),
        }
    }

    /// A whole number below 0.
    pub fn negative(number: i64) -> Number
        requires { int_lt number (pos 0) ≡ true }
        ensures { number_view result ≡ negative number }
    {
        Number {
            kind: NumberKind::Negative(number),
        }
    }

    /// A float, where it is finite.
    pub fn float(number: f64) -> Option<Number>
        ensures { option_map number_view result ≡ of_float number }
    {
        if number.is_finite() {
            Some(Number {
                kind: NumberKind::Float(number),
            })
        } else {
            None
        }
    }

    /// The number, where it is a whole one from 0 on.
    pub fn as_u64(&self) -> Option<u64>
        ensures { result ≡ as_u64 (number_view self.now) }
    {
        match self.kind {
            NumberKind::Whole(number) => Some(number),
            _ => None,
        }
    }

    /// Whether it is no whole number of 64 bits.
    pub fn is_f64(&self) -> bool
        ensures { result ≡ is_float (number_view self.now) }
    {
        matches!(self.kind, NumberKind::Float(_))
    }
}
