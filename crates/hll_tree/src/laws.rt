ghost use Rattle.hll_tree.specs.PrintLaw.{PrintedTextsAreTexts};

/// What is printed of a model that has a text is a text of it. This is a law: its body is empty.
pub fn printed_texts_are_texts()
    ensures { PrintedTextsAreTexts }
{}
