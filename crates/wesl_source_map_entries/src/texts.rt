//! Texts that may be wanting.
ghost use Rattle.std.specs.Prelude.{◌≡◌, IfOk, IfErr, option_map, string_bytes};
ghost use Rattle.wesl_tree_names.specs.declared.errors.Error as error;

use wesl_tree_names::Error;

/// The text, where there is one.
pub fn text_of(text: &Option<String>) -> Option<&str>
    ensures { option_map (λ shown. shown.now) result ≡ option_map string_bytes text.now }
{
    match text {
        Some(text) => Some(text.as_str()),
        None => None,
    }
}

/// A copy of a text, where there is one.
pub(crate) fn copied_text(text: &Option<String>) -> Result<Option<String>, Error>
    ensures equal { IfOk result (λ copy. option_map string_bytes copy ≡ option_map string_bytes text.now) }
    ensures refused { IfErr result (λ e. e ≡ error.Memory) }
{
    match text {
        Some(text) => Ok(Some(text.clone()?)),
        None => Ok(None),
    }
}
