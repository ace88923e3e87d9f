//! The words of variables.
ghost use Rattle.std.specs.Prelude.{◌≡◌, bytes_eq};
ghost use Rattle.std.specs.List.{list_any};
ghost use Rattle.wesl_text_form.specs.Operators.{access_word, space_word};
ghost use Rattle.wesl_scope_words.specs.Said.{every_mode, every_space, every_word};

use wesl_tree::{AccessMode, AddressSpace};

/// The word of an address space.
pub fn space_word(space: AddressSpace) -> &'static str
    ensures { result.now ≡ space_word space }
{
    match space {
        AddressSpace::Function => "function",
        AddressSpace::Private => "private",
        AddressSpace::Workgroup => "workgroup",
        AddressSpace::Uniform => "uniform",
        AddressSpace::Storage => "storage",
        AddressSpace::Handle => "handle",
    }
}

/// The word of an access mode.
pub fn access_word(mode: AccessMode) -> &'static str
    ensures { result.now ≡ access_word mode }
{
    match mode {
        AccessMode::Read => "read",
        AccessMode::Write => "write",
        AccessMode::ReadWrite => "read_write",
    }
}

/// Whether a name is spelled as one of all the words that there are.
pub fn is_word(name: &str) -> bool
    ensures { result ≡ list_any (bytes_eq name.now) every_word }
{
    is_space(name) || is_mode(name)
}

/// Whether a name is spelled as an address space.
fn is_space(name: &str) -> bool
    ensures { result ≡ list_any (bytes_eq name.now) every_space }
{
    name == "function"
        || name == "private"
        || name == "workgroup"
        || name == "uniform"
        || name == "storage"
        || name == "handle"
}

/// Whether a name is spelled as an access mode.
fn is_mode(name: &str) -> bool
    ensures { result ≡ list_any (bytes_eq name.now) every_mode }
{
    name == "read" || name == "write" || name == "read_write"
}
