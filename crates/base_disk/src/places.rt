use std::alloc::{AllocError, Global};

/// The folder of a file.
pub(crate) fn folder_of(path: &str) -> &str {
    match path.rfind('/') {
        None => ".",
        Some(0) => "/",
        Some(end) => &path[..end],
    }
}

/// Where a file is written before it is moved to its place: in the same folder, under a name that begins with a dot.
pub(crate) fn beside_of(alloc: Global, path: &str) -> Result<String, AllocError> {
    let name = match path.rfind('/') {
        None => path,
        Some(end) => &path[end + 1..],
    };
    format!(in alloc; "{}/.{name}.new", folder_of(path))
}
