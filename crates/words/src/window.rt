//! A window over a source of words.
ghost use Rattle.std.specs.Prelude.{◌+◌, ◌^◌, ◌<◌};

/// The part of a source between two of its positions, counted from the first of them.
#[derive(Drop)]
pub struct Window<'a, S> {
    pub(crate) source: &'a S,
    pub(crate) first: u32,
    pub(crate) last: u32,
    ghost fits: { first + last < 2 ^ 32 },
}
