//! The laws of names.
ghost use Rattle.spa_names.specs.Lookup.{NamesComeBack, NumbersAreNamed};

/// A name is given only where looking it up gives the number back.
pub fn names_come_back()
    ensures { NamesComeBack }
{}

/// A number that has a name is given one.
pub fn numbers_are_named()
    ensures { NumbersAreNamed }
{}
