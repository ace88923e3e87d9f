//! What is built in, where no one says otherwise.
ghost use Rattle.std.specs.Prelude.{◌≡◌, ◌<◌, ◌||◌, ◌++◌, length, get_or, map, string_bytes, IfOk, OnOk};
ghost use Rattle.wesl_tree_base.specs.Borrowed.{texts};
ghost use Rattle.wesl_validate_builtins.specs.Builtins.{is_among, builtins_view};
ghost use Rattle.wesl_validate_wgsl.specs.Names.{is_wgsl_name, wgsl};

use crate::names::{CONSTRUCTORS, FUNCTIONS, OTHERS};
use std::alloc::{AllocError, Global};
use wesl_validate_builtins::Builtins;

/// The name at a place.
fn name_at<'n>(names: &[&'n str], place: usize) -> &'n str
    requires { place < length names.now }
    ensures { result ≡ get_or names.now place result }
{
    names[place]
}

/// Whether one of these is the name.
#[tactic(auto, using(wesl_validate_builtins::proofs::Strings::any_map, wesl_validate_builtins::proofs::Strings::any_map_next))]
fn is_one_of(names: &[&str], name: &str) -> bool
    ensures { result ≡ is_among name.now (texts names.now) }
{
    for i in 0..names.len() {
        if name_at(names, i) == name {
            return true;
        }
    }
    false
}

/// Whether WGSL declares a name.
pub fn is_wgsl_name(name: &str) -> bool
    ensures { result ≡ is_wgsl_name name.now }
{
    is_one_of(&FUNCTIONS, name) || is_one_of(&CONSTRUCTORS, name) || is_one_of(&OTHERS, name)
}

/// Adds copies of names.
fn add_copies(copies: &mut Vec<String>, names: &[&str], alloc: Global) -> Result<(), AllocError>
    ensures { OnOk result (map string_bytes copies.new.items ≡ map string_bytes copies.old.items ++ texts names.now) }
{
    for i in 0..names.len() {
        copies.push(String::from_str(alloc, name_at(names, i))?)?;
    }
    Ok(())
}

/// The names that WGSL declares, and those of them that a call may name: what `wgsl_builtins.json` lists. Refused for want of
/// memory alone.
pub fn wgsl_builtins(alloc: Global) -> Result<Builtins, AllocError>
    ensures names { IfOk result (λ b. (builtins_view b).names ≡ wgsl.names) }
    ensures functions { IfOk result (λ b. (builtins_view b).functions ≡ wgsl.functions) }
    ensures constructors { IfOk result (λ b. (builtins_view b).constructors ≡ wgsl.constructors) }
{
    let mut functions = Vec::new(alloc);
    add_copies(&mut functions, &FUNCTIONS, alloc)?;
    let mut constructors = Vec::new(alloc);
    add_copies(&mut constructors, &CONSTRUCTORS, alloc)?;
    let mut names = Vec::new(alloc);
    add_copies(&mut names, &FUNCTIONS, alloc)?;
    add_copies(&mut names, &CONSTRUCTORS, alloc)?;
    add_copies(&mut names, &OTHERS, alloc)?;
    Ok(Builtins::new(names, functions, constructors))
}
