//! The items that names stand for, in a table.
ghost use Rattle.std.specs.Prelude.{◌≡◌, None, OnOk, OnErr, IfErr, string_bytes};
ghost use Rattle.wesl_tree_names.specs.Path.{Text, path_view};
ghost use Rattle.wesl_tree_names.specs.declared.errors.Error as error;
ghost use Rattle.wesl_source_map_entries.specs.Records.{WritesItem, SameItems};
ghost use Rattle.wesl_source_map_entries.specs.Tables.{items_in};

use std::alloc::Global;
use std::collections::BTreeMap;
use wesl_tree_names::{Error, ModulePath};

/// Puts an item at a name, in place of the one that is there.
pub(crate) fn put_decl(
    decls: &mut BTreeMap<String, (ModulePath, String)>,
    name: String,
    path: ModulePath,
    item: String,
) -> Result<(), Error>
    ensures written { OnOk result (WritesItem (string_bytes name) (path_view path, string_bytes item) (items_in decls.old) (items_in decls.new)) }
    ensures kept { OnErr result (SameItems (items_in decls.old) (items_in decls.new)) }
    ensures refused { IfErr result (λ e. e ≡ error.Memory) }
{
    decls.insert(name, (path, item))?;
    Ok(())
}

/// Puts a copy of an item at a copy of its name, in place of the item that is there.
pub(crate) fn put_decl_copy(
    decls: &mut BTreeMap<String, (ModulePath, String)>,
    alloc: Global,
    name: &str,
    path: &ModulePath,
    item: &str,
) -> Result<(), Error>
    ensures written { OnOk result (WritesItem name.now (path_view path.now, item.now) (items_in decls.old) (items_in decls.new)) }
    ensures kept { OnErr result (SameItems (items_in decls.old) (items_in decls.new)) }
    ensures refused { IfErr result (λ e. e ≡ error.Memory) }
{
    let Ok(name) = String::from_str(alloc, name) else {
        return Err(Error::Memory);
    };
    let Ok(item) = String::from_str(alloc, item) else {
        return Err(Error::Memory);
    };
    match path.try_clone(alloc) {
        Ok(path) => put_decl(decls, name, path, item),
        Err(error) => Err(error),
    }
}

/// Fills an empty table with the names and items of another.
pub(crate) fn copy_decls(
    copy: &mut BTreeMap<String, (ModulePath, String)>,
    alloc: Global,
    decls: &BTreeMap<String, (ModulePath, String)>,
) -> Result<(), Error>
    requires empty { (name : Text) → items_in copy.old name ≡ None }
    ensures equal { OnOk result (SameItems (items_in decls.now) (items_in copy.new)) }
    ensures refused { IfErr result (λ e. e ≡ error.Memory) }
{
    for (name, (path, item)) in decls.iter() {
        put_decl_copy(copy, alloc, name.as_str(), path, item.as_str())?;
    }
    Ok(())
}
