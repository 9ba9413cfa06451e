ghost use Rattle.std.specs.Prelude.{◌≡◌, ◌++◌, string_bytes, OnOk};
ghost use Rattle.text.specs.Output.{name_of, refusal_line, named_refusal_line};

use std::alloc::AllocError;
use std::fmt::Write;
use wire::Refusal;

/// What a refusal says in words: the only place that has them.
pub fn refusal_name(refusal: Refusal) -> &'static str
    ensures { result.now ≡ name_of refusal }
{
    match refusal {
        Refusal::Malformed => "not of the right form",
        Refusal::Misdelivered => "not for this house",
        Refusal::NotRoot => "not a root, or not of this house",
        Refusal::NoField => "no such field",
        Refusal::NotHere => "the object is not here",
        Refusal::NotHolder => "the asking house has no line of this census, or at home no root",
        Refusal::OldStamp => "the stamp is not above the highest seen",
        Refusal::OtherCensus => "of another census",
        Refusal::NoRoom => "no room for an object, field, root or line",
        Refusal::OutOfNumbers => "a number that does not rise, or a counter at its end",
        Refusal::WrongHouse => "not a call for this house",
    }
}

/// The line that says which refusal it was, by its number alone.
pub fn write_refusal(refusal: Refusal, out: &mut String) -> Result<(), AllocError>
    ensures { OnOk result (string_bytes out.new ≡ string_bytes out.old ++ refusal_line refusal) }
{
    writeln!(out, "no {refusal}")
}

/// The line that says which refusal it was, by its number and its name.
pub fn write_named_refusal(refusal: Refusal, out: &mut String) -> Result<(), AllocError>
    ensures { OnOk result (string_bytes out.new ≡ string_bytes out.old ++ named_refusal_line refusal) }
{
    let name = refusal_name(refusal);
    writeln!(out, "no {refusal} {name}")
}
