//! The literals of numbers (WGSL, "Literals"), as one automaton.
ghost use Rattle.std.specs.Prelude.{◌≡◌, ◌<◌, IfSome};
ghost use Rattle.wesl_text_tokens.specs.Numbers.{goes_on, is_whole_number};
ghost use Rattle.wesl_text_tokens.specs.declared.number.Digits.TheVariants as read;

/// What has been read of a number.
#[derive(Clone, Copy, Drop)]
pub(crate) enum Digits {
    /// `0`.
    ZeroAlone,
    /// Digits, of which the first is not `0`.
    Whole,
    /// Digits behind a first `0`: an exponent or a `.` must follow.
    LedByZero,
    /// Digits with a `.` among them.
    Pointed,
    /// Behind `e` or `p`.
    Power,
    /// Behind the sign of an exponent.
    SignedPower,
    /// In the digits of an exponent.
    Powered,
    /// Behind `0x`.
    Hex,
    /// Digits of base 16.
    HexWhole,
    /// Behind `0x.`.
    HexDot,
    /// Digits of base 16 with a `.` among them.
    HexPointed,
    /// Behind a suffix.
    Suffixed,
}

impl Digits {
    /// What the number goes on with at a character.
    pub(crate) fn goes_on(self, c: char) -> Option<Digits>
        ensures value { result ≡ goes_on self c }
        ensures ascii { IfSome result (λ _. c < 128) }
    {
        match self {
            Digits::ZeroAlone => after_zero(c),
            Digits::Whole => after_whole(c),
            Digits::LedByZero => after_led_by_zero(c),
            Digits::Pointed => after_pointed(c),
            Digits::Power => after_power(c),
            Digits::SignedPower => powered(c),
            Digits::Powered => after_powered(c),
            Digits::Hex => after_hex(c),
            Digits::HexWhole => after_hex_whole(c),
            Digits::HexDot => hex_pointed(c),
            Digits::HexPointed => after_hex_pointed(c),
            Digits::Suffixed => None,
        }
    }

    /// Whether what has been read is a number.
    pub(crate) fn is_whole_number(self) -> bool
        ensures { result ≡ is_whole_number self }
    {
        match self {
            Digits::LedByZero
            | Digits::Power
            | Digits::SignedPower
            | Digits::Hex
            | Digits::HexDot => false,
            Digits::ZeroAlone
            | Digits::Whole
            | Digits::Pointed
            | Digits::Powered
            | Digits::HexWhole
            | Digits::HexPointed
            | Digits::Suffixed => true,
        }
    }
}

fn after_zero(c: char) -> Option<Digits>
    ensures value { result ≡ goes_on read.ZeroAlone c }
    ensures ascii { IfSome result (λ _. c < 128) }
{
    match c {
        '0'..='9' => Some(Digits::LedByZero),
        '.' => Some(Digits::Pointed),
        'e' | 'E' => Some(Digits::Power),
        'x' | 'X' => Some(Digits::Hex),
        'i' | 'u' | 'f' | 'h' => Some(Digits::Suffixed),
        _ => None,
    }
}

fn after_whole(c: char) -> Option<Digits>
    ensures value { result ≡ goes_on read.Whole c }
    ensures ascii { IfSome result (λ _. c < 128) }
{
    match c {
        '0'..='9' => Some(Digits::Whole),
        '.' => Some(Digits::Pointed),
        'e' | 'E' => Some(Digits::Power),
        'i' | 'u' | 'f' | 'h' => Some(Digits::Suffixed),
        _ => None,
    }
}

fn after_led_by_zero(c: char) -> Option<Digits>
    ensures value { result ≡ goes_on read.LedByZero c }
    ensures ascii { IfSome result (λ _. c < 128) }
{
    match c {
        '0'..='9' => Some(Digits::LedByZero),
        '.' => Some(Digits::Pointed),
        'e' | 'E' => Some(Digits::Power),
        _ => None,
    }
}

fn after_pointed(c: char) -> Option<Digits>
    ensures value { result ≡ goes_on read.Pointed c }
    ensures ascii { IfSome result (λ _. c < 128) }
{
    match c {
        '0'..='9' => Some(Digits::Pointed),
        'e' | 'E' => Some(Digits::Power),
        'f' | 'h' => Some(Digits::Suffixed),
        _ => None,
    }
}

fn after_power(c: char) -> Option<Digits>
    ensures value { result ≡ goes_on read.Power c }
    ensures ascii { IfSome result (λ _. c < 128) }
{
    match c {
        '0'..='9' => Some(Digits::Powered),
        '+' | '-' => Some(Digits::SignedPower),
        _ => None,
    }
}

fn powered(c: char) -> Option<Digits>
    ensures value { result ≡ goes_on read.SignedPower c }
    ensures ascii { IfSome result (λ _. c < 128) }
{
    match c {
        '0'..='9' => Some(Digits::Powered),
        _ => None,
    }
}

fn after_powered(c: char) -> Option<Digits>
    ensures value { result ≡ goes_on read.Powered c }
    ensures ascii { IfSome result (λ _. c < 128) }
{
    match c {
        '0'..='9' => Some(Digits::Powered),
        'f' | 'h' => Some(Digits::Suffixed),
        _ => None,
    }
}

fn after_hex(c: char) -> Option<Digits>
    ensures value { result ≡ goes_on read.Hex c }
    ensures ascii { IfSome result (λ _. c < 128) }
{
    match c {
        '0'..='9' | 'A'..='F' | 'a'..='f' => Some(Digits::HexWhole),
        '.' => Some(Digits::HexDot),
        _ => None,
    }
}

fn after_hex_whole(c: char) -> Option<Digits>
    ensures value { result ≡ goes_on read.HexWhole c }
    ensures ascii { IfSome result (λ _. c < 128) }
{
    match c {
        '0'..='9' | 'A'..='F' | 'a'..='f' => Some(Digits::HexWhole),
        '.' => Some(Digits::HexPointed),
        'p' | 'P' => Some(Digits::Power),
        'i' | 'u' => Some(Digits::Suffixed),
        _ => None,
    }
}

fn hex_pointed(c: char) -> Option<Digits>
    ensures value { result ≡ goes_on read.HexDot c }
    ensures ascii { IfSome result (λ _. c < 128) }
{
    match c {
        '0'..='9' | 'A'..='F' | 'a'..='f' => Some(Digits::HexPointed),
        _ => None,
    }
}

fn after_hex_pointed(c: char) -> Option<Digits>
    ensures value { result ≡ goes_on read.HexPointed c }
    ensures ascii { IfSome result (λ _. c < 128) }
{
    match c {
        '0'..='9' | 'A'..='F' | 'a'..='f' => Some(Digits::HexPointed),
        'p' | 'P' => Some(Digits::Power),
        _ => None,
    }
}
