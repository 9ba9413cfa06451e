// What bytes say, laid out for C: the number of the refusal, or 0 and the parts of a message; 0 stands for a part that it does not have.
#[repr(C)]
#[derive(Clone, Copy, Default)]
pub struct Said {
    pub refusal: u8,
    // the first byte
    pub kind: u8,
    pub by: u8,
    pub from: u8,
    pub to: u8,
    pub calm: bool,
    // how many objects a word has
    pub count: u16,
    pub object: u32,
    pub stamp: u32,
    pub census: u32,
    pub round: u32,
    pub tally: u32,
}
