//! Paths that a configuration file spells, taken from the folder of the file.

ghost use Rattle.std.specs.Prelude.{◌≡◌, IfOk, string_bytes};
ghost use Rattle.std.specs.Option.{option_map};
ghost use Rattle.node_config.specs.Paths.{IsFolderOf, begins_with_slash, placed};

use std::alloc::{AllocError, Global};

/// Returns the folder of the file at this path: the part of the path up to its last slash, or an
/// empty text if it has no slash.
pub fn folder_of(path: &str) -> &str
    ensures { IsFolderOf path.now result.now }
{
    match path.rfind('/') {
        Some(place) => path.split_at(place + 1).0,
        None => "",
    }
}

/// Returns the path, taken from the folder unless the path begins with a slash. `folder` is a
/// result of `folder_of`.
pub fn placed_in(
    alloc: Global,
    folder: &str,
    path: Option<String>,
) -> Result<Option<String>, AllocError>
    ensures { IfOk result (λ found. option_map string_bytes found
        ≡ option_map (λ text. placed folder.now (string_bytes text)) path) }
{
    match path {
        Some(path) => Ok(Some(one_placed_in(alloc, folder, path)?)),
        None => Ok(None),
    }
}

/// Returns whether the path begins with a slash.
fn is_absolute(path: &str) -> bool
    ensures { result ≡ begins_with_slash path.now }
{
    match path.as_bytes() {
        [b'/', ..] => true,
        _ => false,
    }
}

/// Returns the path, taken from the folder unless the path begins with a slash.
fn one_placed_in(alloc: Global, folder: &str, path: String) -> Result<String, AllocError>
    ensures { IfOk result (λ found. string_bytes found ≡ placed folder.now (string_bytes path)) }
{
    if is_absolute(&path) {
        return Ok(path);
    }
    let mut whole = String::from_str(alloc, folder)?;
    whole.push_str(&path)?;
    Ok(whole)
}
