ghost use Rattle.census.specs.Shown.{name_in};

use tables::Named;
use wire::Name;

// What has come of a telling, the news to an object's home that the object is in use here.
#[derive(Clone, Copy, Debug, PartialEq, Eq)]
pub enum Telling {
    // sent, and sent again until the home answers
    Awaited,
    // the home has noted it
    Answered,
}

// A reference to an object of another house that was told to its home in this census.
#[derive(Clone, Copy, Debug, PartialEq, Eq)]
pub struct Told {
    pub object: Name,
    pub state: Telling,
}

impl Named for Told {
    ghost called = { name_in };

    fn its_name(&self) -> Name {
        self.object
    }
}
