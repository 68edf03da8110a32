ghost use Rattle.runs.specs.Laws.{OneOrder, RefusalChangesNothing, NamesWereEntered, NoSpellingTwice, NoTripleTwice, UnfitExactly, RotationGivesSlots, FitIsFirst, ValueStays, ValuesWereFitted, OthersHaveZero, FilledExactly, FittedExactly, SealsSoundly, OnePlate, FoundByOneLook};

/// The rules give the vertices one order, and it is the computed one.
pub fn one_order()
    ensures { OneOrder }
{}

pub fn refusal_changes_nothing<N>()
    ensures { RefusalChangesNothing N }
{}

pub fn names_were_entered<N>()
    ensures { NamesWereEntered N }
{}

pub fn no_spelling_twice<N>()
    ensures { NoSpellingTwice N }
{}

pub fn no_triple_twice<N>()
    ensures { NoTripleTwice N }
{}

/// Asked for in its turn, a level is refused as unfit exactly if every rotation is blocked.
pub fn unfit_exactly<N>()
    ensures { UnfitExactly N }
{}

/// What a rotation gives the names of a level are their slots once its vertex has that value.
pub fn rotation_gives_slots<N>()
    ensures { RotationGivesSlots N }
{}

/// An accepted fit answers the first rotation of its way that fits, and the tries.
pub fn fit_is_first<N>()
    ensures { FitIsFirst N }
{}

/// A fitted vertex keeps its value until an order is accepted.
pub fn value_stays<N>()
    ensures { ValueStays N }
{}

/// Every value of a fitted vertex was answered by a fit, and every other value is 0.
pub fn values_were_fitted<N>()
    ensures fitted { ValuesWereFitted N }
    ensures others { OthersHaveZero N }
{}

/// The filled slots are those of the names settled since the last accepted order.
pub fn filled_exactly<N>()
    ensures { FilledExactly N }
{}

/// The stage is fitted exactly when every ordered vertex has been fitted.
pub fn fitted_exactly<N>()
    ensures { FittedExactly N }
{}

/// An accepted seal has a lawful plate that holds exactly the names entered.
pub fn seals_soundly<N>()
    ensures { SealsSoundly N }
{}

pub fn one_plate<N>()
    ensures { OnePlate N }
{}

pub fn found_by_one_look<N>()
    ensures { FoundByOneLook N }
{}
