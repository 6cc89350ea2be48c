//! Where the debug file of a link may be.

ghost use Rattle.std.specs.Prelude.{◌≡◌, ◌==◌, ◌++◌, IfOk, position, reverse};
ghost use Rattle.debug_links.specs.PathViews.{paths_seen};
ghost use Rattle.debug_links.specs.Paths.{folder_of, linked_paths};

use std::alloc::{AllocError, Global};

// How many bytes a path has behind its last slash, if it has one.
fn size_behind(path: &[u8]) -> Option<usize>
    ensures { result ≡ position (λ byte. byte == 47) (reverse path.now) }
{
    path.iter().rev().position(|byte| *byte == b'/')
}

// The folder of a path.
fn folder_of(path: &[u8]) -> &[u8]
    ensures { result.now ≡ folder_of path.now }
{
    match size_behind(path) {
        Some(size) => &path[..path.len() - size],
        None => &path[..0],
    }
}

// The path of a debug file in a folder, and there in another one.
fn path_in(
    alloc: Global,
    root: &[u8],
    folder: &[u8],
    inner: &[u8],
    link: &[u8],
) -> Result<Vec<u8>, AllocError>
    ensures { IfOk result (λ path. path.items ≡ root.now ++ folder.now ++ inner.now ++ link.now) }
{
    let mut path = Vec::from_slice(alloc, root)?;
    path.extend_from_slice(folder)?;
    path.extend_from_slice(inner)?;
    path.extend_from_slice(link)?;
    Ok(path)
}

/// The paths at which the debug file of a file may be, by the file's path and the name in its link, in the order in which debuggers look there:
/// the file's folder and `.debug` in that, below one folder, and the file's folder below another.
pub fn linked_paths(
    alloc: Global,
    root: &[u8],
    debug_root: &[u8],
    file: &[u8],
    link: &[u8],
) -> Result<Vec<Vec<u8>>, AllocError>
    ensures { IfOk result (λ paths. paths_seen paths.items
        ≡ linked_paths root.now debug_root.now file.now link.now) }
{
    let folder = folder_of(file);
    let mut paths = Vec::new(alloc);
    paths.push(path_in(alloc, root, folder, b"", link)?)?;
    paths.push(path_in(alloc, root, folder, b".debug/", link)?)?;
    paths.push(path_in(alloc, debug_root, folder, b"", link)?)?;
    Ok(paths)
}
