//! A distinct list in memory of its own.
ghost use Rattle.std.specs.Prelude.{◌≤◌, vec_len};

// The memory is handed in and back and never grows, so the count of records stands beside it.
/// A distinct list: the first `held` records of its memory, of which no two are the same.
#[derive(Drop)]
pub struct DistinctList<R> {
    pub(crate) memory: Vec<R>,
    pub(crate) held: usize,
    ghost room: { held ≤ vec_len memory },
}
