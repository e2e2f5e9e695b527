//! Laws over the definitions, each the contract of a function that does nothing.
ghost use Rattle.std.specs.Prelude.{◌≡◌};
ghost use Rattle.amdl_tree.specs.Laws.{StandsOnce, LayoutIsOneToOne, LayoutStands, SpellingIsOneToOne, FileIsOfOneTree};
ghost use Rattle.amdl_tree.specs.Laws.{LayoutIsFile, PartsAreSpelledOnce, BuiltByParts, FitsByDepth, ShapedByDepth};
ghost use Rattle.amdl_tree.specs.Laws.{WordsSplit, ReservedDiffer, DerivableIsLeast};
ghost use Rattle.amdl_tree.specs.Layout.{layout_of_tree};
ghost use Rattle.amdl_tree.specs.Spelling.{spell};
ghost use Rattle.amdl_tree.specs.WellBuilt.{IsWellBuilt};
ghost use Rattle.amdl_tree.specs.Depth.{depth_of_tree};
ghost use Rattle.amdl_tree.specs.Example.{wire, text_of_wire, tokens_of_wire, valueless};
ghost use Rattle.amdl_tree.specs.ExampleClass.{gated, text_of_gated, tokens_of_gated};

/// A text stands for at most one token list.
pub fn text_stands_once()
    ensures { StandsOnce }
{}

/// No two trees that texts can spell have one layout.
pub fn layout_is_one_to_one()
    ensures { LayoutIsOneToOne }
{}

/// The canonical layout of a tree that a text can spell, read as a text, is the spelling of the tree, each token the
/// longest that starts at its place.
pub fn layout_stands_for_spelling()
    ensures { LayoutStands }
{}

/// No two trees that texts can spell have one spelling.
pub fn spelling_is_one_to_one()
    ensures { SpellingIsOneToOne }
{}

/// A text is the network file of at most one tree.
pub fn file_is_of_one_tree()
    ensures { FileIsOfOneTree }
{}

/// The canonical layout of a shaped tree is its network file.
pub fn layout_is_file()
    ensures { LayoutIsFile }
{}

/// A token list begins with at most one part of each kind, so that what stands behind it is settled too.
pub fn parts_are_spelled_once()
    ensures { PartsAreSpelledOnce }
{}

/// What it is to be well built, by the parts of a part.
pub fn built_by_parts()
    ensures { BuiltByParts }
{}

/// What a bound on the depth asks, of an item and of a tree: that it is well built and as deep at most.
pub fn shape_is_by_depth()
    ensures item { FitsByDepth }
    ensures tree { ShapedByDepth }
{}

/// A text begins with at most one word that ends there, so that what stands behind it is settled too.
pub fn words_split()
    ensures { WordsSplit }
{}

/// No two reserved words have one spelling.
pub fn reserved_words_differ()
    ensures { ReservedDiffer }
{}

/// What is derivable is the least set that the rules keep, here for rules that a test gives.
pub fn derivable_is_least<A>()
    ensures { DerivableIsLeast A }
{}

/// The layout of a small tree with each kind of item but classes and boxes, as its text.
pub fn layout_of_wire()
    ensures { layout_of_tree wire ≡ text_of_wire }
{}

/// The spelling of a small tree with each kind of item but classes and boxes.
pub fn spelling_of_wire()
    ensures { spell wire ≡ tokens_of_wire }
{}

/// A class with each kind of statement and literal, and boxes of it: the spelling, the layout and the depth.
pub fn example_with_class()
    ensures spelled { spell gated ≡ tokens_of_gated }
    ensures laid { layout_of_tree gated ≡ text_of_gated }
    ensures deep { depth_of_tree gated ≡ 3 }
{}

/// A type without values stands in no tree that a text can spell.
pub fn valueless_is_not_built()
    ensures { IsWellBuilt valueless → ⊥ }
{}
