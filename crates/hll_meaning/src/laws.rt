//! The laws of what texts mean. Each is a function with an empty body, whose contract is the law.

ghost use Rattle.hll_meaning.specs.NodeLaws.{ExpressionsStandLast, NodesAreFaultless, RangesHoldTheirValues, ValuesOfNodesLieInTheirRanges};
ghost use Rattle.hll_meaning.specs.Soundness.{ConstantsHaveTheirValues, DeclaredConstantsHaveTheirValues, IndicesLieInTheirRanges, NamesAreFine, NamesOfPass1Agree, ValuesLieInTheirRanges, ValuesOfTextsLieInTheirRanges, WorthsAreLookedAt};
ghost use Rattle.hll_meaning.specs.Places.{PlacesDiffer, PlacesOfRangesDiffer};
ghost use Rattle.hll_meaning.specs.WellTexts.{DefinitionsFit, DemandsAreTruths, DemandsHaveTruths};

/// The value of an expression without static faults is one of the kind that the static rules give it, at each instant of every
/// history whose variables lie in their kinds.
pub fn values_lie_in_their_ranges()
    ensures { ValuesLieInTheirRanges }
{}

/// Where a constant is needed, the value that the static rules give an expression without static faults is what it is worth.
pub fn constants_have_their_values()
    ensures in_scenes { ConstantsHaveTheirValues }
    ensures where_declared { DeclaredConstantsHaveTheirValues }
{}

/// Where pass 1 finds no fault, its names agree with those of the text but for the roots and codes of elements.
pub fn names_of_pass1_agree()
    ensures { NamesOfPass1Agree }
{}

/// What is looked at of an expression, to see whether it is safe, has its worth.
pub fn worths_are_looked_at()
    ensures { WorthsAreLookedAt }
{}

/// What the names of a text without static faults stand for is fine: constants are of their kinds, and each array has an element.
pub fn names_are_fine()
    ensures { NamesAreFine }
{}

/// In a text without static faults the values of expressions without faults lie in their kinds, at each instant of every history
/// whose variables lie in theirs.
pub fn values_of_texts_lie_in_their_ranges()
    ensures { ValuesOfTextsLieInTheirRanges }
{}

/// For each element that a left side without static faults picks, the numbers of its index names lie in the kinds that the static
/// rules give them.
pub fn indices_lie_in_their_ranges()
    ensures { IndicesLieInTheirRanges }
{}

/// In a text without static faults each constraint and each obligation has no faults and is a truth value, so it is 0 or 1 at each
/// instant of every history whose variables lie in their kinds.
pub fn demands_are_truths()
    ensures are { DemandsAreTruths }
    ensures have { DemandsHaveTruths }
{}

/// In a text without static faults each definition is that of a variable, its left side and its expressions have no faults, and
/// these fit what it defines.
pub fn definitions_fit()
    ensures { DefinitionsFit }
{}

/// No two expressions that stand in a text have one place, and no place has two ranges.
pub fn places_differ()
    ensures expressions { PlacesDiffer }
    ensures ranges { PlacesOfRangesDiffer }
{}

/// Behind all that stands in an expression stands the expression itself.
pub fn expressions_stand_last()
    ensures { ExpressionsStandLast }
{}

/// In a text without static faults no expression that stands in it, at any depth, has faults where it stands.
pub fn nodes_are_faultless()
    ensures { NodesAreFaultless }
{}

/// In a text without static faults the value of each expression that stands in it is one of the kind that the static rules give it
/// there, at each instant of every history whose variables lie in theirs. So each place with a range is that of such an
/// expression, and its number lies in the range.
pub fn values_of_nodes_lie_in_their_ranges()
    ensures values { ValuesOfNodesLieInTheirRanges }
    ensures ranges { RangesHoldTheirValues }
{}
