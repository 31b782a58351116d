// The counts of an image: threads, words and registers, the value range, and the records of each kind that may repeat.
#[derive(Clone, Copy)]
pub struct Sizes {
    pub threads: u8,
    pub words: u8,
    pub registers: u8,
    pub range: u8,
    pub formulas: u16,
    pub lines: u16,
    pub claims: u16,
}
