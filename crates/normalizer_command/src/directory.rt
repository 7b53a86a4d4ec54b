//! Where the data are.
ghost use Rattle.std.specs.Prelude.{◌≡◌, map, option_copied, string_bytes, IfOk};
ghost use Rattle.normalizer_command.specs.DataDirectory.{own_paths, path_of};

use std::alloc::{AllocError, Global};

/// Returns the path of the data: the one that `--data` names, else the one that the variable `UNINORM_DATA` names, unless
/// that is empty, else the first of the program's own that are there.
pub fn path_of<'a>(
    named: Option<&'a str>,
    variable: Option<&'a str>,
    own: &[&'a str],
) -> Option<&'a str>
    ensures { option_copied result
        ≡ path_of (option_copied named.entry) (option_copied variable.entry) (map (λ path. path.now) own.now) }
{
    match (named, variable) {
        (Some(path), _) => Some(path),
        (None, Some(path)) if !path.is_empty() => Some(path),
        _ => own.first().copied(),
    }
}

/// The paths that a program in a folder may have: prepared data and Unicode's files, in `data/unicode` there and in
/// `share/uninorm` beside the folder, where an installed program has them.
pub fn own_paths(alloc: Global, folder: &str) -> Result<Vec<String>, AllocError>
    ensures { IfOk result (λ own. map string_bytes own.items ≡ own_paths folder.now) }
{
    let mut own = Vec::new(alloc);
    own.push(format!(in alloc; "{folder}/data/unicode/prepared")?)?;
    own.push(format!(in alloc; "{folder}/../share/uninorm/prepared")?)?;
    own.push(format!(in alloc; "{folder}/data/unicode")?)?;
    own.push(format!(in alloc; "{folder}/../share/uninorm")?)?;
    Ok(own)
}
