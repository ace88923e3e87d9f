//! What is asked for of the link of a bundle of texts.
ghost use Rattle.std.specs.Prelude.{◌≡◌};

use wesl_program_bundle::Options;
use wesl_text_linked::{LinkRequest, TextRequest, Validation};
use wesl_tree::ModulePath;
use wesl_validate_builtins::Builtins;

// What is asked for: the text of a link from the root by the options, of whose names this is asked.
pub(crate) fn request_of<'w>(
    root: &'w ModulePath,
    keep: &'w [&'w str],
    options: Options,
    validation: Validation,
    builtins: &'w Builtins,
) -> TextRequest<'w>
    ensures root { result.link.root.now ≡ root.now }
    ensures kept { result.link.keep.now ≡ keep.now }
    ensures eager { result.link.is_eager ≡ options.eager }
    ensures limit { result.link.max_modules ≡ options.max_modules }
    ensures mangled { result.mangle_root ≡ options.mangle_root }
    ensures validated { result.validation ≡ validation }
    ensures builtins { result.builtins.now ≡ builtins.now }
{
    TextRequest {
        link: LinkRequest {
            root,
            keep,
            is_eager: options.eager,
            max_modules: options.max_modules,
        },
        mangle_root: options.mangle_root,
        validation,
        builtins,
    }
}
