//! Where a field stands.

/// Where a field begins in kept bytes, and where it ends.
#[derive(Clone, Copy, Debug)]
pub struct Span {
    pub from: usize,
    pub to: usize,
}
