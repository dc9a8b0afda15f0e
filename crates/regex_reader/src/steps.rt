// Where the reader stands.

// The place of the next character, and the place of the next word. A part answers where it ends; None says that none stands there.
#[derive(Clone, Copy)]
pub struct Cursor {
    pub at: usize,
    pub len: usize,
}
