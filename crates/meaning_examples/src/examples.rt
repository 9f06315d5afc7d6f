//! Examples worked out by hand, which show what the definitions of values, runs and safety say. Each is a function with an empty
//! body, whose contract has the examples.

ghost use Rattle.meaning_examples.specs.Examples.{AbsoluteValues, BoundNamesHideOthers, BrokenAtOnce, BrokenAtTheSecondInstant, BrokenUnderConstraints};
ghost use Rattle.meaning_examples.specs.Examples.{Compares, ConstraintsCountAtEachInstant, CounterHasOneRun, CounterStartsAgain, DivisionByZeroIsDefined};
ghost use Rattle.meaning_examples.specs.Examples.{ElementsBecomeTheFirst, EnumerationsAreRoots, EveryValueIsLookedAt, FieldsOfStructs, FirstInstantAlone};
ghost use Rattle.meaning_examples.specs.Examples.{FirstOperandsAreLookedAt, FirstTrueBranch, GroupsFitPartByPart, HasTable, ImplicationsGroupFromTheRight};
ghost use Rattle.meaning_examples.specs.Examples.{IndexNamesGoOverPlaces, IndicesOutsideAreUnsafe, IndicesOutsideReadPlace0, LaterIndicesGoFaster};
ghost use Rattle.meaning_examples.specs.Examples.{LaterOperands, LeastAndGreatest, ListsAsWritten, MainFirst, MemoriesAreNotLookedAt};
ghost use Rattle.meaning_examples.specs.Examples.{NamedTypesAreDomains, NumbersAsWritten, OneDefinitionOrTwo, OnlyTheLastInstantCounts};
ghost use Rattle.meaning_examples.specs.Examples.{OtherBranchesAreNotLookedAt, OthersGroupFromTheLeft, OutsideBecomesLowerBound, OverElements};
ghost use Rattle.meaning_examples.specs.Examples.{OverNumbers, OverTruthValues, PreIsTheInstantBefore, PreKeepsBoundNumbers, PreOfPre};
ghost use Rattle.meaning_examples.specs.Examples.{QuotientsAreTruncated, RemaindersHaveSignOfDividend, RootsAreTopmost, RowsComeFirst, ShuntFirst};
ghost use Rattle.meaning_examples.specs.Examples.{SortsAreTheirCodes, TableHasOneRun, TableIsFilled, ValuesOutsideAreUnsafe, WhatStandsInMemories};
ghost use Rattle.meaning_examples.specs.Examples.{ZeroDivisorsAreUnsafe};
ghost use Rattle.std.specs.Prelude.{false, true};
ghost use Rattle.hll_tree.specs.declared.tree.Cmp.TheVariants as cmp;
ghost use Rattle.hll_tree.specs.declared.tree.Op.TheVariants as op;

/// `/` truncates toward zero, `%` has the sign of the dividend, and by zero they give 0 and the dividend.
pub fn divisions_truncate()
    ensures quotients { QuotientsAreTruncated }
    ensures remainders { RemaindersHaveSignOfDividend }
    ensures by_zero { DivisionByZeroIsDefined }
{}

/// The operators of truth values and the comparisons of numbers.
pub fn operators_have_their_tables()
    ensures both { HasTable op.And true false false false }
    ensures either { HasTable op.Or true true true false }
    ensures implies { HasTable op.Implies true false true true }
    ensures same { HasTable op.Same true false false true }
    ensures differ { HasTable op.Differ false true true false }

    ensures eq { Compares cmp.Eq false true false }
    ensures ne { Compares cmp.Ne true false true }
    ensures lt { Compares cmp.Lt true false false }
    ensures le { Compares cmp.Le true true false }
    ensures gt { Compares cmp.Gt false false true }
    ensures ge { Compares cmp.Ge false true true }
{}

/// A chain of `->` groups from the right, all others from the left.
pub fn chains_group()
    ensures implications { ImplicationsGroupFromTheRight }
    ensures others { OthersGroupFromTheLeft }
{}

/// The least, the greatest and the absolute value, and the branch of an `if` that is taken.
pub fn numbers_are_chosen()
    ensures ends { LeastAndGreatest }
    ensures sizes { AbsoluteValues }
    ensures branches { FirstTrueBranch }
{}

/// What an index or a field reads.
pub fn parts_are_read()
    ensures outside { IndicesOutsideReadPlace0 }
    ensures rows { RowsComeFirst }
    ensures fields { FieldsOfStructs }
{}

/// What becomes of a value outside the type of its variable.
pub fn values_fit()
    ensures numbers { OutsideBecomesLowerBound }
    ensures elements { ElementsBecomeTheFirst }
    ensures groups { GroupsFitPartByPart }
{}

/// What stood at the instant before.
pub fn pre_looks_back()
    ensures once { PreIsTheInstantBefore }
    ensures twice { PreOfPre }
    ensures under_a_bind { PreKeepsBoundNumbers }
    ensures first { FirstInstantAlone }
{}

/// What quantifiers go over.
pub fn quantifiers_go_over_their_domains()
    ensures numbers { OverNumbers }
    ensures truth_values { OverTruthValues }
    ensures hidden { BoundNamesHideOthers }
{}

/// The codes of elements are their places in the topmost sort, and a sort as a domain goes over its own.
pub fn elements_have_their_codes()
    ensures shunt_first { ShuntFirst }
    ensures main_first { MainFirst }
    ensures deep { RootsAreTopmost }
    ensures enumerations { EnumerationsAreRoots }
    ensures over { OverElements }
    ensures domains { SortsAreTheirCodes }
{}

/// What an expression looks at, and what makes that unsafe.
pub fn safety_is_of_what_is_looked_at()
    ensures divisors { ZeroDivisorsAreUnsafe }
    ensures indices { IndicesOutsideAreUnsafe }
    ensures branches { OtherBranchesAreNotLookedAt }
    ensures operands { LaterOperands }
    ensures first_operands { FirstOperandsAreLookedAt }
    ensures domains { EveryValueIsLookedAt }
    ensures memories { MemoriesAreNotLookedAt }
    ensures in_memories { WhatStandsInMemories }
    ensures values { ValuesOutsideAreUnsafe }
{}

/// The runs of a counter whose next value may lie outside its range, and of an array whose rows are defined by an index name.
pub fn texts_have_their_runs()
    ensures counter { CounterStartsAgain }
    ensures no_other_count { CounterHasOneRun }
    ensures one_or_two { OneDefinitionOrTwo }
    ensures table { TableIsFilled }
    ensures no_other_table { TableHasOneRun }
    ensures one_index { IndexNamesGoOverPlaces }
    ensures two_indices { LaterIndicesGoFaster }
{}

/// What constraints do for an obligation, and how long a shortest run is that breaks one.
pub fn obligations_hold_or_break()
    ensures hold { ConstraintsCountAtEachInstant }
    ensures under_constraints { BrokenUnderConstraints }
    ensures one_instant { BrokenAtOnce }
    ensures two_instants { BrokenAtTheSecondInstant }
    ensures at_the_last { OnlyTheLastInstantCounts }
{}

/// The kinds of variables by what is written.
pub fn types_are_as_written()
    ensures numbers { NumbersAsWritten }
    ensures lists { ListsAsWritten }
    ensures domains { NamedTypesAreDomains }
{}
