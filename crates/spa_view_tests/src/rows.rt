//! The parts of a row, and the views of its bytes.
use spa_view::{Pod, PodObject};

/// The parts of a row, without the spaces around them.
pub(crate) fn parts(row: &str) -> (&str, &str, &str) {
    let (first, rest) = row.split_once('|').unwrap_or((row, ""));
    let (second, third) = rest.split_once('|').unwrap_or((rest, ""));
    (first.trim(), second.trim(), third.trim())
}

/// The view of the pod at the front of the bytes.
pub(crate) fn pod_at(bytes: &[u8]) -> Result<Pod<'_>, &'static str> {
    Pod::from_bytes(bytes).ok_or("no pod")
}

/// The view of the object at the front of the bytes.
pub(crate) fn object_at(bytes: &[u8]) -> Result<PodObject<'_>, &'static str> {
    pod_at(bytes)?.as_object().ok().ok_or("no object")
}
