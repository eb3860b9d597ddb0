// The laws of typing, each the contract of a function that does nothing.
ghost use Rattle.types.specs.Fits.{DemandsAreMet};
ghost use Rattle.types.specs.Laws.{DeclaredNamesAreDistinct, DeclaredNamesStay, ExpressionsHaveOneWidth, LocalsMayBeLeftOut, NamesAreDeclaredOnce, ProceduresMayBeLeftOut, TypesMayBeLeftOut};
ghost use Rattle.types.specs.LeavingOut.{LastElementMayBeLeftOut, LocalsMayStandApart, OneLocalMayBeLeftOut, OnePortMayBeLeftOut, PortsMayBeLeftOut, PortsMayStandApart};
ghost use Rattle.types.specs.Nearest.{NamesAreDeclaredBefore};
ghost use Rattle.types.specs.SameTree.{TreeStaysTheSame};
ghost use Rattle.types.specs.WhatFits.{LabelsThatFitAreAccepted, ValuesThatFitAreAccepted};
ghost use Rattle.types.specs.Widths.{OperandsHaveOneWidth, TypesHaveOneWidth};

/// In an accepted description each name that a procedure uses has one declaration among those that are visible there,
/// and one among those before it, which is the nearest.
pub fn names_are_declared_once()
    ensures once { NamesAreDeclaredOnce }
    ensures before { NamesAreDeclaredBefore }
{}

/// An accepted description keeps the names that each procedure declares, and these are distinct.
pub fn declared_names_are_distinct()
    ensures stay { DeclaredNamesStay }
    ensures distinct { DeclaredNamesAreDistinct }
{}

/// In an accepted description each type of a port or local, each expression and each operand in it has exactly one
/// width by the rules of the language.
pub fn expressions_have_one_width()
    ensures types { TypesHaveOneWidth }
    ensures whole { ExpressionsHaveOneWidth }
    ensures operands { OperandsHaveOneWidth }
{}

/// In an accepted description each guard is one bit wide, what is assigned, sent, received or matched has room, and a
/// call passes for each port what is as wide. (What is a variable and what a channel, `tree_stays_the_same` says.)
pub fn widths_fit()
    ensures { DemandsAreMet }
{}

/// An accepted description stays accepted without a type, a procedure, or a declaration of locals or of ports that is
/// not used.
pub fn unused_may_be_left_out()
    ensures types { TypesMayBeLeftOut }
    ensures procedures { ProceduresMayBeLeftOut }
    ensures locals { LocalsMayBeLeftOut }
    ensures ports { PortsMayBeLeftOut }
{}

/// What one declaration of locals or of ports declares may be declared by two: the description becomes the same.
pub fn names_may_stand_apart()
    ensures locals { LocalsMayStandApart }
    ensures ports { PortsMayStandApart }
{}

/// An accepted description stays accepted without one unused name of a declaration of locals or of ports, or the last
/// element of an enumeration, where the others keep their width.
pub fn unused_name_may_be_left_out()
    ensures local { OneLocalMayBeLeftOut }
    ensures port { OnePortMayBeLeftOut }
    ensures element { LastElementMayBeLeftOut }
{}

/// What an accepted description becomes is the description as it is written, form by form: commands, names, widths,
/// lines and offsets.
pub fn tree_stays_the_same()
    ensures { TreeStaysTheSame }
{}

/// A `case` with any number as its label that is no wider than its expression is accepted where it is with another
/// label, and an assignment of any value that is no wider than its variable, where both are accepted in assignments.
pub fn what_fits_is_accepted()
    ensures labels { LabelsThatFitAreAccepted }
    ensures values { ValuesThatFitAreAccepted }
{}
