//! What is said of modules, in a table.
ghost use Rattle.std.specs.Prelude.{◌≡◌, None, OnOk, OnErr, IfErr, option_map, string_bytes};
ghost use Rattle.wesl_tree_names.specs.Path.{Path, path_view};
ghost use Rattle.wesl_tree_names.specs.declared.errors.Error as error;
ghost use Rattle.wesl_source_map_entries.specs.Records.{WritesSource, SameSources, source_view};
ghost use Rattle.wesl_source_map_entries.specs.Tables.{sources_in};

use crate::texts::copied_text;
use std::alloc::Global;
use std::collections::HashMap;
use wesl_tree_names::{Error, ModulePath};

/// Puts what is said of a module at its path, in place of what is there.
pub(crate) fn put_source(
    sources: &mut HashMap<ModulePath, (Option<String>, String)>,
    path: ModulePath,
    display: Option<String>,
    text: String,
) -> Result<(), Error>
    ensures written { OnOk result (WritesSource (path_view path) (option_map string_bytes display, string_bytes text)
        (sources_in sources.old.entries) (sources_in sources.new.entries)) }
    ensures kept { OnErr result (SameSources (sources_in sources.old.entries) (sources_in sources.new.entries)) }
    ensures refused { IfErr result (λ e. e ≡ error.Memory) }
{
    sources.insert(path, (display, text))?;
    Ok(())
}

/// Puts a copy of what is said of a module at a copy of its path, in place of what is there.
pub(crate) fn put_source_copy(
    sources: &mut HashMap<ModulePath, (Option<String>, String)>,
    alloc: Global,
    path: &ModulePath,
    display: Option<String>,
    text: &str,
) -> Result<(), Error>
    ensures written { OnOk result (WritesSource (path_view path.now) (option_map string_bytes display, text.now)
        (sources_in sources.old.entries) (sources_in sources.new.entries)) }
    ensures kept { OnErr result (SameSources (sources_in sources.old.entries) (sources_in sources.new.entries)) }
    ensures refused { IfErr result (λ e. e ≡ error.Memory) }
{
    let Ok(text) = String::from_str(alloc, text) else {
        return Err(Error::Memory);
    };
    match path.try_clone(alloc) {
        Ok(path) => put_source(sources, path, display, text),
        Err(error) => Err(error),
    }
}

/// Puts a copy of what a table says of a module in another.
fn put_said(
    copy: &mut HashMap<ModulePath, (Option<String>, String)>,
    alloc: Global,
    path: &ModulePath,
    said: &(Option<String>, String),
) -> Result<(), Error>
    ensures written { OnOk result (WritesSource (path_view path.now) (source_view said.now)
        (sources_in copy.old.entries) (sources_in copy.new.entries)) }
    ensures refused { IfErr result (λ e. e ≡ error.Memory) }
{
    let (display, text) = said;
    match copied_text(display) {
        Ok(display) => put_source_copy(copy, alloc, path, display, text.as_str()),
        Err(error) => Err(error),
    }
}

/// Fills an empty table with what another says of modules.
pub(crate) fn copy_sources(
    copy: &mut HashMap<ModulePath, (Option<String>, String)>,
    alloc: Global,
    sources: &HashMap<ModulePath, (Option<String>, String)>,
) -> Result<(), Error>
    requires empty { (path : Path) → sources_in copy.old.entries path ≡ None }
    ensures equal { OnOk result (SameSources (sources_in sources.now.entries) (sources_in copy.new.entries)) }
    ensures refused { IfErr result (λ e. e ≡ error.Memory) }
{
    for (path, said) in sources.iter() {
        put_said(copy, alloc, path, said)?;
    }
    Ok(())
}
