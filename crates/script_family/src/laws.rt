ghost use Rattle.script_family.specs.Laws.{EachScriptHasANumber, CountsAreLengths, ShorterFirst, PartsAreTheWhole};

/// A script of a family has a number, and each number below the count is that of a script of it.
pub fn each_script_has_a_number()
    ensures { EachScriptHasANumber }
{}

/// How many scripts of each length a family has, and how many in all.
pub fn counts_are_lengths()
    ensures { CountsAreLengths }
{}

/// A greater number has no fewer lines.
pub fn shorter_first()
    ensures { ShorterFirst }
{}

/// Each part has every so-manieth number from its own on: together they have each number once.
pub fn parts_are_the_whole()
    ensures { PartsAreTheWhole }
{}
