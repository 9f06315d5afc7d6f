//! The laws of dependence. Each is a function with an empty body, whose contract is the law.

ghost use Rattle.dependence.specs.Causality.{CausalTextsHaveOrders, InputsHaveOneRun};
ghost use Rattle.dependence.specs.CellRuns.{RunsGoByCells, SettingMakesRuns};
ghost use Rattle.dependence.specs.Laws.{DefinedInOneWay, DependOnCells, MentionedCellsAreCells, SpelledTextsAreLinked, StaticsAreConstant, ValuesGoByMentionedCells, WorthsAreMentioned};
ghost use Rattle.dependence.specs.Ways.{EachCellHasOneWay, InputsAreNotDefined};

/// What is said of an expression has its worth.
pub fn worths_are_mentioned()
    ensures { WorthsAreMentioned }
{}

/// The value of a static expression is the same at all instants of all histories.
pub fn statics_are_constant()
    ensures { StaticsAreConstant }
{}

/// In a text without faults each cell that an expression mentions is a cell of the text.
pub fn mentioned_cells_are_cells()
    ensures { MentionedCellsAreCells }
{}

/// In a text without faults a place of an expression's value goes by the cells that the expression mentions for that place, and by
/// what was before.
pub fn values_go_by_mentioned_cells()
    ensures { ValuesGoByMentionedCells }
{}

/// In a text that tokens spell each chain has a link.
pub fn spelled_texts_are_linked()
    ensures { SpelledTextsAreLinked }
{}

/// In a spelled text without faults a cell depends on cells of the text.
pub fn depend_on_cells()
    ensures { DependOnCells }
{}

/// A spelled text without faults is causal where its cells have an order.
pub fn causal_texts_have_orders()
    ensures { CausalTextsHaveOrders }
{}

/// A definition has one element and one place for each cell that it defines.
pub fn defined_in_one_way()
    ensures { DefinedInOneWay }
{}

/// In a text without faults each cell gets its numbers in exactly one way: it is one of an input, and no definition defines it; or
/// one definition has its value, or both its first value and the next one; or one definition has the first value and another the
/// next one.
pub fn each_cell_has_one_way()
    ensures ways { EachCellHasOneWay }
    ensures inputs { InputsAreNotDefined }
{}

/// Cells that are set one after the other, each by what its definitions give over what is known by then, make a run.
pub fn setting_makes_runs()
    ensures { SettingMakesRuns }
{}

/// In a text without faults a history is a run where each cell has at each time what its definitions give it.
pub fn runs_go_by_cells()
    ensures { RunsGoByCells }
{}

/// In a causal spelled text without faults every list of input values has exactly one run.
pub fn inputs_have_one_run()
    ensures { InputsHaveOneRun }
{}
