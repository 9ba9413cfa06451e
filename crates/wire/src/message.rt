use crate::names::{Census, House, Name, RoundNumber, Stamp, Tally};

// A word's objects within the bytes of its message: where they begin, and how many there are.
#[derive(Clone, Copy)]
pub struct Part {
    pub at: usize,
    pub count: u16,
}

// What one house sends to another. The first byte of a message says which it is.
#[derive(Clone, Copy)]
pub enum Message {
    // 1: `by` asks the object's home to hand it to `to`
    Ask {
        object: Name,
        by: House,
        to: House,
    },
    // 2: the object's home hands it to `to`
    Give {
        object: Name,
        to: House,
        stamp: Stamp,
    },
    // 3, a word: which objects of `to` are roots or in fields at `from`, and the highest stamp seen from `to`
    Word {
        from: House,
        to: House,
        stamp: Stamp,
        objects: Part,
    },
    // 4, a telling: the object, which lives elsewhere, is in use at `from`
    Telling {
        census: Census,
        object: Name,
        from: House,
    },
    // 5: the home has noted that telling
    Answer {
        census: Census,
        object: Name,
        from: House,
    },
    // 6: every house is asked whether it is calm
    Round {
        census: Census,
        number: RoundNumber,
    },
    // 7: calm says that all that is in use was told and answered
    Reply {
        census: Census,
        number: RoundNumber,
        from: House,
        calm: bool,
        tally: Tally,
    },
    // 8: the census has reached everything
    Complete {
        census: Census,
    },
}
