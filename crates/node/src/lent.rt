ghost use Rattle.node.specs.Tied.{Tied};

use lines::Lines;
use objects::Objects;

// What is lent to a house's head for a step: the house's objects and its list. The list is lent by reference, as the objects are:
// of a list that lies in here by value the lender would not know in what state its columns come back.
#[derive(Drop)]
pub struct Tables<'a, 'b, 'c> {
    pub objects: &'a mut Objects,
    pub list: &'b mut Lines<'c>,
    ghost tied: { Tied objects.now list.now },
}
