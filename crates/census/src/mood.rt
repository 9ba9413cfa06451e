ghost use Rattle.std.specs.Prelude.{◌≡◌};
ghost use Rattle.census.specs.Moods.{is_calm};

// What a house says of itself when a round asks it.
#[derive(Clone, Copy, Debug, PartialEq, Eq)]
pub enum Mood {
    // every far reference in use was told in this census, and every telling answered
    Calm,
    // something is left to tell or to be answered, or, at round 2, a reference was taken since round 1 was answered
    Restless,
}

impl Mood {
    // As a reply says it.
    pub fn is_calm(self) -> bool
        ensures { result ≡ is_calm self }
    {
        self == Mood::Calm
    }
}

// The mood that a reply tells of.
impl From<bool> for Mood {
    ghost from_gives = { λ calm mood. is_calm mood ≡ calm };

    fn from(calm: bool) -> Mood {
        if calm { Mood::Calm } else { Mood::Restless }
    }
}
