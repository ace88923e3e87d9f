//! Which words may be used as names (WGSL, "Keywords", "Reserved Words", "Identifiers").
ghost use Rattle.std.specs.Prelude.{◌≡◌, bytes_eq, map};
ghost use Rattle.wesl_text_form.specs.Names.{begins_private, is_among, is_free};
ghost use Rattle.wesl_text_read.specs.TakenWords.{AreTakenWords};

// the keywords and reserved words of WGSL, a list for each first letter
const CAPITAL_N_WORDS: [&str; 1] = ["NULL"];

const CAPITAL_S_WORDS: [&str; 1] = ["Self"];

const A_WORDS: [&str; 12] = [
    "abstract",
    "active",
    "alias",
    "alignas",
    "alignof",
    "as",
    "asm",
    "asm_fragment",
    "async",
    "attribute",
    "auto",
    "await",
];

const B_WORDS: [&str; 2] = ["become", "break"];

const C_WORDS: [&str; 22] = [
    "case",
    "cast",
    "catch",
    "class",
    "co_await",
    "co_return",
    "co_yield",
    "coherent",
    "column_major",
    "common",
    "compile",
    "compile_fragment",
    "concept",
    "const",
    "const_assert",
    "const_cast",
    "consteval",
    "constexpr",
    "constinit",
    "continue",
    "continuing",
    "crate",
];

const D_WORDS: [&str; 10] = [
    "debugger",
    "decltype",
    "default",
    "delete",
    "demote",
    "demote_to_helper",
    "diagnostic",
    "discard",
    "do",
    "dynamic_cast",
];

const E_WORDS: [&str; 8] = [
    "else", "enable", "enum", "explicit", "export", "extends", "extern", "external",
];

const F_WORDS: [&str; 10] = [
    "fallthrough",
    "false",
    "filter",
    "final",
    "finally",
    "fn",
    "for",
    "friend",
    "from",
    "fxgroup",
];

const G_WORDS: [&str; 3] = ["get", "goto", "groupshared"];

const H_WORDS: [&str; 1] = ["highp"];

const I_WORDS: [&str; 7] = [
    "if",
    "impl",
    "implements",
    "import",
    "inline",
    "instanceof",
    "interface",
];

const L_WORDS: [&str; 4] = ["layout", "let", "loop", "lowp"];

const M_WORDS: [&str; 10] = [
    "macro",
    "macro_rules",
    "match",
    "mediump",
    "meta",
    "mod",
    "module",
    "move",
    "mut",
    "mutable",
];

const N_WORDS: [&str; 11] = [
    "namespace",
    "new",
    "nil",
    "noexcept",
    "noinline",
    "nointerpolation",
    "non_coherent",
    "noncoherent",
    "noperspective",
    "null",
    "nullptr",
];

const O_WORDS: [&str; 3] = ["of", "operator", "override"];

const P_WORDS: [&str; 13] = [
    "package",
    "packoffset",
    "partial",
    "pass",
    "patch",
    "pixelfragment",
    "precise",
    "precision",
    "premerge",
    "priv",
    "protected",
    "pub",
    "public",
];

const R_WORDS: [&str; 10] = [
    "readonly",
    "ref",
    "regardless",
    "register",
    "reinterpret_cast",
    "require",
    "requires",
    "resource",
    "restrict",
    "return",
];

const S_WORDS: [&str; 14] = [
    "self",
    "set",
    "shared",
    "sizeof",
    "smooth",
    "snorm",
    "static",
    "static_assert",
    "static_cast",
    "std",
    "struct",
    "subroutine",
    "super",
    "switch",
];

const T_WORDS: [&str; 13] = [
    "target",
    "template",
    "this",
    "thread_local",
    "throw",
    "trait",
    "true",
    "try",
    "type",
    "typedef",
    "typeid",
    "typename",
    "typeof",
];

const U_WORDS: [&str; 7] = [
    "union", "unless", "unorm", "unsafe", "unsized", "use", "using",
];

const V_WORDS: [&str; 4] = ["var", "varying", "virtual", "volatile"];

const W_WORDS: [&str; 5] = ["wgsl", "where", "while", "with", "writeonly"];

const Y_WORDS: [&str; 1] = ["yield"];

// The keywords and reserved words that begin with this byte.
#[tactic(auto, unfolding(crate::specs::TakenWords::AreTakenWords))]
fn taken_words(first: u8) -> &'static [&'static str]
    ensures { AreTakenWords first (map (λ w. w.now) result.now) }
{
    match first {
        b'N' => &CAPITAL_N_WORDS,
        b'S' => &CAPITAL_S_WORDS,
        b'a' => &A_WORDS,
        b'b' => &B_WORDS,
        b'c' => &C_WORDS,
        b'd' => &D_WORDS,
        b'e' => &E_WORDS,
        b'f' => &F_WORDS,
        b'g' => &G_WORDS,
        b'h' => &H_WORDS,
        b'i' => &I_WORDS,
        b'l' => &L_WORDS,
        b'm' => &M_WORDS,
        b'n' => &N_WORDS,
        b'o' => &O_WORDS,
        b'p' => &P_WORDS,
        b'r' => &R_WORDS,
        b's' => &S_WORDS,
        b't' => &T_WORDS,
        b'u' => &U_WORDS,
        b'v' => &V_WORDS,
        b'w' => &W_WORDS,
        b'y' => &Y_WORDS,
        _ => &[],
    }
}

// Whether two words are the same; most differ in length already.
fn is_same(word: &str, known: &str) -> bool
    ensures { result ≡ bytes_eq word.now known.now }
{
    word.len() == known.len() && word == known
}

// Whether a word is one of these.
fn is_among(words: &[&str], word: &str) -> bool
    ensures { result ≡ is_among (map (λ w. w.now) words.now) word.now }
{
    for known in words {
        if is_same(word, known) {
            return true;
        }
    }
    false
}

// Whether two underscores come first.
fn begins_private(word: &str) -> bool
    ensures { result ≡ begins_private word.now }
{
    match word.as_bytes() {
        [first, second, ..] => *first == b'_' && *second == b'_',
        _ => false,
    }
}

/// Whether a word may be declared and used as a name.
pub fn is_free(word: &str) -> bool
    ensures { result ≡ is_free word.now }
{
    if word == "_" || begins_private(word) {
        return false;
    }
    match word.as_bytes() {
        [first, ..] => !is_among(taken_words(*first), word),
        [] => true,
    }
}
