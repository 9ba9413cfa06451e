// Stamps: for each of sixteen houses the last stamp given to it, the highest seen from it, and the highest that it is known to have seen.
#[derive(Clone, Copy)]
pub struct Stamps {
    pub given: [u32; 16],
    pub seen: [u32; 16],
    pub heard: [u32; 16],
}
