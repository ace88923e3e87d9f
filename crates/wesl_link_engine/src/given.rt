//! Names that are given to symbols, a module at a time.
ghost use Rattle.std.specs.Prelude.{◌≡◌, Some, None, OnOk, option_map};
ghost use Rattle.wesl_tree_names.specs.Path.{Text, Path, path_view};
ghost use Rattle.wesl_link_symbols.specs.declared.ids.PathId.{PathId};
ghost use Rattle.wesl_tree_base.specs.declared.ids.NameId.{NameId};
ghost use Rattle.wesl_link_symbols.specs.declared.symbols.Symbol as symbols;
ghost use Rattle.wesl_link_tables.specs.TextsView.{numbering_of_texts as numbering};
ghost use Rattle.wesl_link_engine.specs.Given.{AreNamed, GivesName, GivesNames, Keeps, KeepsOthers, KeepsUndeclared, SameVariants};
ghost use Rattle.wesl_link_engine.specs.Recording.{RecordsName, RecordsTable};

use std::alloc::{AllocError, Global};
use std::collections::HashMap;
use wesl_link_symbols::ids::{NameId, PathId};
use wesl_link_symbols::symbols::Symbol;
use wesl_link_symbols::table::Table;
use wesl_link_tables::texts::NumberTexts;
use wesl_mangle_forms::Mangler;
use wesl_tree_names::ModulePath;

/// The names that a mangler gave to symbols (WESL, "NameMangling").
#[derive(Drop)]
pub(crate) struct GivenNames {
    names: HashMap<Symbol<PathId, NameId>, String>,
}

impl GivenNames {
    ghost use Rattle.wesl_link_engine.specs.GivenView.{given};

    /// No names. It takes no memory.
    pub(crate) fn new(alloc: Global) -> GivenNames
        ensures { (s : symbols.Symbol PathId NameId) → given result s ≡ None }
    {
        GivenNames {
            names: HashMap::new(alloc),
        }
    }

    /// The name that was given to a symbol.
    pub(crate) fn get(&self, symbol: Symbol<PathId, NameId>) -> Option<&str>
        ensures { option_map (λ x. x.now) result ≡ given self.now symbol }
    {
        match self.names.get(&symbol) {
            Some(name) => Some(name.as_str()),
            None => None,
        }
    }

    /// Gives a symbol the name that the mangler has for the item of the module at the path, unless it has a name.
    fn add_name<M: Mangler>(
        &mut self,
        alloc: Global,
        mangler: &mut M,
        path: &ModulePath,
        symbol: Symbol<PathId, NameId>,
        item: &str,
    ) -> Result<(), AllocError>
        ensures gives { OnOk result (GivesName (M.name_of mangler.old (path_view path.now) item.now) symbol (given self.old) (given self.new)) }
        ensures others { (s : symbols.Symbol PathId NameId) → (s ≡ symbol → ⊥) → given self.new s ≡ given self.old s }
        ensures keeps { Keeps (given self.old) (given self.new) }
        ensures same { (p : Path) (i : Text) → M.name_of mangler.new p i ≡ M.name_of mangler.old p i }
        ensures same_variants { SameVariants (M.variant_of mangler.old) (M.variant_of mangler.new) }
        ensures same_writing { M.writes mangler.new ≡ M.writes mangler.old }
        ensures recorded { OnOk result (RecordsName (M.writes mangler.old) (M.name_of mangler.old) path.now item.now (given self.old symbol) (M.recorded mangler.old) (M.recorded mangler.new)) }
    {
        if self.get(symbol).is_some() {
            return Ok(());
        }
        let Some(name) = mangler.mangle(alloc, path, item).ok() else {
            return Err(AllocError);
        };
        self.names.insert(symbol, name)?;
        Ok(())
    }

    /// Gives each name that a module declares the name that the mangler has for it, where it was given none before
    /// (WESL, "NameMangling").
    ///
    /// `numbers` are those of the table's names, and `path` is the module's. Refused for want of memory alone; the names
    /// that were given until then stay. Of a module none of whose names was given, the mangler writes each declared name
    /// once, in the order in which they stand first.
    pub(crate) fn add_table<M: Mangler>(
        &mut self,
        alloc: Global,
        mangler: &mut M,
        numbers: &NumberTexts,
        path: &ModulePath,
        table: &Table,
    ) -> Result<(), AllocError>
        requires numbered { AreNamed (numbering numbers.now) table.now }
        ensures given { OnOk result (GivesNames (numbering numbers.now) (M.name_of mangler.old (path_view path.now)) table.now (given self.old) (given self.new)) }
        ensures others { KeepsOthers table.now.path (given self.old) (given self.new) }
        ensures undeclared { KeepsUndeclared table.now (given self.old) (given self.new) }
        ensures keeps { Keeps (given self.old) (given self.new) }
        ensures same { (p : Path) (i : Text) → M.name_of mangler.new p i ≡ M.name_of mangler.old p i }
        ensures same_variants { SameVariants (M.variant_of mangler.old) (M.variant_of mangler.new) }
        ensures same_writing { M.writes mangler.new ≡ M.writes mangler.old }
        ensures recorded { OnOk result (RecordsTable (M.writes mangler.old) (M.name_of mangler.old) path.now numbers.now table.now self.old (M.recorded mangler.old) (M.recorded mangler.new)) }
    {
        for declaration in table.declarations() {
            if let Some(name) = declaration.name() {
                let Some(item) = numbers.names.name(name) else {
                    unreachable!()
                };
                let symbol = Symbol {
                    path: table.path(),
                    name,
                };
                self.add_name(alloc, mangler, path, symbol, item)?;
            }
        }
        Ok(())
    }
}
