ghost use Rattle.fields.specs.Writing.{Shows, Spares};
ghost use Rattle.fields.specs.Parts.{Composes, AnyOrderGivesTheString, NoneStands, OneMoreStands, AllAreTheString};

/// Bytes that were written show at their place.
pub fn bytes_written_show()
    ensures { Shows }
{}

/// A write leaves every byte outside its place as it was.
pub fn bytes_elsewhere_stay()
    ensures { Spares }
{}

/// A string is whole once its front is written and each record is at its place.
pub fn parts_in_place_are_the_string()
    ensures { Composes }
{}

/// Once every part of a plate's string was written, in whatever order and however often, memory
/// begins with the string, and what lay behind it is untouched.
pub fn any_order_gives_the_string()
    ensures { AnyOrderGivesTheString }
{}

/// The same for writing in loops: at first no part stands in memory, each write of a part adds
/// it to those that do, and once all do, memory begins with the string.
pub fn each_write_adds_its_part()
    ensures none { NoneStands }
    ensures more { OneMoreStands }
    ensures all { AllAreTheString }
{}
