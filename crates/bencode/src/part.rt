// A part of some bytes, by its two ends.

// The bytes from start up to end.
#[derive(Clone, Copy)]
pub struct Part {
    pub start: usize,
    pub end: usize,
}
