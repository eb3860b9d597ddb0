// The paths of the files that a launch names.
ghost use Rattle.std.specs.Prelude.{◌≡◌, ◌++◌, IfOk, codes, string_bytes};
ghost use Rattle.std.specs.Option.{option_map};
ghost use Rattle.dap.specs.Asking as model;

use dap_views::{is_rooted, own_name};
use std::alloc::{AllocError, Global};

/// The path of a file, where one is named.
pub(crate) fn path_in(alloc: Global, folder: &str, name: &str) -> Result<Option<String>, AllocError>
    ensures { IfOk result (λ path. option_map (λ p. string_bytes p) path ≡ model.path_in folder.now name.now) }
{
    if name.is_empty() {
        return Ok(None);
    }
    match whole(alloc, folder, name) {
        Ok(path) => Ok(Some(path)),
        Err(AllocError) => Err(AllocError),
    }
}

/// The path of a file of this name: one that does not begin at a root counts from the folder. Where no folder is named
/// that is the one in which the adapter was started.
fn whole(alloc: Global, folder: &str, name: &str) -> Result<String, AllocError>
    ensures { IfOk result (λ path. string_bytes path ≡ model.whole folder.now name.now) }
{
    if folder.is_empty() {
        String::from_str(alloc, name)
    } else {
        within(alloc, folder, name)
    }
}

/// The same where a folder is named.
fn within(alloc: Global, folder: &str, name: &str) -> Result<String, AllocError>
    ensures { IfOk result (λ path. string_bytes path ≡ model.within folder.now name.now) }
{
    if is_rooted(name) {
        String::from_str(alloc, name)
    } else {
        joined(alloc, unslashed(folder), own_name(name))
    }
}

/// The path of a file of this name in this folder.
fn joined(alloc: Global, folder: &str, name: &str) -> Result<String, AllocError>
    ensures { IfOk result (λ path. string_bytes path ≡ (folder.now ++ codes "/") ++ name.now) }
{
    let mut path = String::from_str(alloc, folder)?;
    path.push_str("/")?;
    path.push_str(name)?;
    Ok(path)
}

/// The folder without each `/` at its end.
fn unslashed(folder: &str) -> &str
    ensures { result.now ≡ model.unslashed folder.now }
{
    folder.trim_end_matches('/')
}

/// The path of the stimulus beside a source.
pub(crate) fn beside(alloc: Global, program: &str) -> Result<String, AllocError>
    ensures { IfOk result (λ path. string_bytes path ≡ model.beside program.now) }
{
    let mut path = String::from_str(alloc, stem(program))?;
    path.push_str(".stimulus")?;
    Ok(path)
}

/// The path of a source without its ending.
fn stem(program: &str) -> &str
    ensures { result.now ≡ model.stem program.now }
{
    match program.strip_suffix(".balsa") {
        Some(stem) => stem,
        None => program,
    }
}
