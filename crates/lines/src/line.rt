use wire::{Census, House, Name, Stamp};

// Line: this object was handed to this holder, last with this stamp, and was last found in use in this census.
#[derive(Clone, Copy, Debug, PartialEq, Eq)]
pub struct Line {
    pub object: Name,
    pub holder: House,
    pub stamp: Stamp,
    pub census: Census,
}
