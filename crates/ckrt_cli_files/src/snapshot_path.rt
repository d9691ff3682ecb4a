//! Which snapshot of a history is the nearest one, by their paths.

/// Behind how many events a snapshot is, by the name that its path ends with.
fn count_of(path: &str) -> Option<u64> {
    let (_, name) = path.rsplit_once('/')?;
    name.parse::<u64>().ok()
}

/// Whether a snapshot behind so many events is nearer to a position than the one that was found: not behind the position, and later.
fn is_nearer(count: u64, position: u64, found: Option<(u64, &str)>) -> bool {
    match found {
        Some((other, _)) => count <= position && other < count,
        None => count <= position,
    }
}

/// The path of the last snapshot that is behind no more events than a position, of these paths, a line each.
pub(crate) fn nearest_of<'a>(paths: &'a str, position: u64) -> Option<&'a str> {
    let mut nearest = None;
    for path in paths.lines() {
        if let Some(count) = count_of(path) {
            if is_nearer(count, position, nearest) {
                nearest = Some((count, path));
            }
        }
    }
    let (_, path) = nearest?;
    Some(path)
}
