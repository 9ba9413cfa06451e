use crate::names::{House, Name};

// What a program asks of its house, as it was written: whether the house can do it is seen there.
#[derive(Clone, Copy)]
pub enum Call {
    // an object with this number, which may be above every range
    Make { number: u64 },
    Link { object: Name, target: Name },
    Unlink { object: Name, target: Name },
    Load { object: Name, target: Name },
    Drop { object: Name },
    Ask { object: Name, to: House },
    Collect,
    Word { to: House },
    // a census of this number, which may be above every range
    Join { census: u64 },
    Tell,
    Round,
}
