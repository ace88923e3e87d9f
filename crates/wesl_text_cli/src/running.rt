//! From the words to the text and what is told beside it.
use crate::finishing::{Asked, outcome_of_link};
use crate::libraries::{libraries_of, parted_warnings};
use crate::wishes::{Stop, features_of, flags_of, packages_of};
use crate::words::{naming_of, validation_of};
use clap::ArgMatches;
use std::alloc::{AllocError, Global};
use std::fs;
use std::path::Path;
use std::rt::Files;
use wesl_cond_features::{Feature, Features};
use wesl_text_bundle::read_builtins;
use wesl_text_homes::Libraries;
use wesl_text_link::{LinkWish, MapWish, ProjectModules, linked_text};
use wesl_text_project::{
    Description, Layout, Progress, ProjectFault, default_root, description_of, given_packages,
    layout_of, parsed_root, root_of_file,
};
use wesl_tree::ModulePath;
use wesl_validate_builtins::Builtins;

/// What came of a link.
#[derive(Drop)]
pub struct Outcome {
    /// What is written: the text of the linked unit, or what explains the link, if that is asked for.
    pub text: Option<String>,
    /// What is told beside it, each on a line.
    pub warnings: Vec<String>,
    /// Whether the text is what the modules mean.
    pub is_as_meant: bool,
    /// The rule of the files that were read.
    pub rule: Option<String>,
    /// The source map, if one is asked for.
    pub map: Option<String>,
    /// The bundle, if one is asked for.
    pub bundle: Option<String>,
    /// Why there is no text of the linked unit, if there is none.
    pub fault: Option<ProjectFault>,
}

/// Links what the words ask for. Where `progress` is given, it tells how many modules were read.
pub fn outcome_of<R: Files + AllocGlobal + Clone + Drop>(
    rt: &R,
    matches: &ArgMatches<'_>,
    progress: Option<Progress>,
) -> Result<Outcome, Stop> {
    let alloc = rt.alloc();
    let project = matches.get_str("PROJECT").unwrap_or(".");
    let is_file = Path::new(project).is_file(rt);
    let folder = if is_file { folder_of(project) } else { project };
    let mut description = description_of(rt, folder)?;
    let packages = packages_of(alloc, matches.get_strs("package"))?;
    let given = given_packages(alloc, &packages)?;
    let layout = layout_of(rt, folder, &mut description, given)?;
    let root = root_of(rt, matches, &description, &layout, is_file, project)?;
    linked(rt, matches, &description, &layout, &root, is_file, progress)
}

// The folder of a file.
fn folder_of(file: &str) -> &str {
    match Path::new(file).parent() {
        Some(folder) => folder.as_str(),
        None => "",
    }
}

// The path of the root.
fn root_of<R: Files + AllocGlobal + Clone + Drop>(
    rt: &R,
    matches: &ArgMatches<'_>,
    description: &Description,
    layout: &Layout,
    is_file: bool,
    project: &str,
) -> Result<ModulePath, ProjectFault> {
    let alloc = rt.alloc();
    if let Some(root) = matches.get_str("root") {
        return parsed_root(alloc, root);
    }
    if is_file {
        return root_of_file(alloc, project);
    }
    match &description.root {
        Some(root) => parsed_root(alloc, root.as_str()),
        None => default_root(rt, layout),
    }
}

// The names that are kept, where they are told: by the words, or by the description where it tells the root too.
fn keep_of<'k>(
    alloc: Global,
    matches: &'k ArgMatches<'_>,
    description: &'k Description,
    is_file: bool,
) -> Result<Option<Vec<&'k str>>, AllocError> {
    if let Some(given) = matches.get_strs("keep") {
        return Ok(Some(Vec::from_slice(alloc, given)?));
    }
    let is_other = is_file || matches.get_str("root").is_some();
    match &description.keep {
        Some(names) if !is_other => {
            let mut keep = Vec::new(alloc);
            for name in names {
                keep.push(name.as_str())?;
            }
            Ok(Some(keep))
        }
        _ => Ok(None),
    }
}

// Links the modules of a layout.
fn linked<'m, R: Files + AllocGlobal>(
    rt: &'m R,
    matches: &'m ArgMatches<'_>,
    description: &'m Description,
    layout: &'m Layout,
    root: &'m ModulePath,
    is_file: bool,
    progress: Option<Progress>,
) -> Result<Outcome, Stop> {
    let alloc = rt.alloc();
    let flags = flags_of(alloc, matches.get_strs("feature"))?;
    let features = features_of(alloc, matches, description, &flags)?;
    let keep = keep_of(alloc, matches, description, is_file)?;
    let file = matches.get_str("builtins");
    let text = builtins_text(rt, file)?;
    let text = text.as_ref().map(|text| text.as_str());
    let builtins = read_builtins(alloc, file.unwrap_or(""), text)?;
    let names = flag_names(alloc, &flags)?;
    let keep = keep.as_ref().map(|keep| keep.as_slice());
    let wish = link_wish(matches, root, keep, &builtins);
    let asked = Asked {
        matches,
        description,
        wish: &wish,
        builtins: text,
    };
    linked_by(rt, layout, asked, features.as_ref(), &names, progress)
}

// Links the modules of a layout by the wish and under these features, whose flags have these names.
fn linked_by<R: Files + AllocGlobal>(
    rt: &R,
    layout: &Layout,
    asked: Asked<'_, '_>,
    features: Option<&Features>,
    names: &[&str],
    progress: Option<Progress>,
) -> Result<Outcome, Stop> {
    let alloc = rt.alloc();
    let parted = parted_libraries(rt, asked.matches, layout)?;
    let libraries = linked_libraries(rt, asked.matches, layout, asked.wish.root)?;
    let mut modules = ProjectModules::new(rt, layout, &libraries, features, names, progress)?;
    let found = linked_text(alloc, &mut modules, asked.wish);
    outcome_of_link(alloc, asked, modules.read_modules(), parted, found)
}

// The link that is asked for.
fn link_wish<'w>(
    matches: &'w ArgMatches<'_>,
    root: &'w ModulePath,
    keep: Option<&'w [&'w str]>,
    builtins: &'w Builtins,
) -> LinkWish<'w> {
    LinkWish {
        root,
        keep,
        is_eager: matches.get_flag("eager"),
        naming: naming_of(matches),
        mangle_root: matches.get_flag("mangle-root"),
        validation: validation_of(matches),
        builtins,
        has_comments: !matches.get_flag("no-comments"),
        map: map_wish(matches),
    }
}

// The libraries of a layout.
fn linked_libraries<R: Files + AllocGlobal>(
    rt: &R,
    matches: &ArgMatches<'_>,
    layout: &Layout,
    root: &ModulePath,
) -> Result<Libraries, AllocError> {
    if matches.get_flag("copies") {
        Ok(Libraries::new(rt.alloc()))
    } else {
        libraries_of(rt, layout, root)
    }
}

// What is told of folders that are several libraries.
fn parted_libraries<R: Files + AllocGlobal>(
    rt: &R,
    matches: &ArgMatches<'_>,
    layout: &Layout,
) -> Result<Vec<String>, AllocError> {
    if matches.get_flag("copies") {
        Ok(Vec::new(rt.alloc()))
    } else {
        parted_warnings(rt, layout)
    }
}

// The source map that is asked for, if one is.
fn map_wish<'a>(matches: &ArgMatches<'a>) -> Option<MapWish<'a>> {
    match matches.get_str("map") {
        Some(map) => Some(MapWish {
            map,
            file: matches.get_str("output"),
        }),
        None => None,
    }
}

// The names of flags.
fn flag_names<'f>(alloc: Global, flags: &[(&'f str, Feature)]) -> Result<Vec<&'f str>, AllocError> {
    let mut names = Vec::new(alloc);
    for (name, _) in flags.iter() {
        names.push(*name)?;
    }
    Ok(names)
}

// The text of the built-in names.
fn builtins_text<R: Files + AllocGlobal>(
    rt: &R,
    file: Option<&str>,
) -> Result<Option<String>, ProjectFault> {
    let Some(file) = file else {
        return Ok(None);
    };
    match fs::read_to_string(rt, file) {
        Ok(text) => Ok(Some(text)),
        Err(fault) => Err(ProjectFault::Project(format!(in rt.alloc(); "{file}: {fault}")?)),
    }
}
