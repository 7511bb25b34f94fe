//! The laws of what a desk has served. These functions do nothing: their contracts are the laws, to be cited
//! in contracts of one's own after a call of a desk.

ghost use Rattle.tp_desk.specs.Books.{ServesLowered, ServesNeverLower, ServesPreserved, ServesRaised};
ghost use Rattle.tp_desk.specs.Books.{ServesRaisedByOutputs};
ghost use Rattle.tp_desk.specs.Laws.{RecipeDeclines, RecipeFinishes, ServesRecipe};

/// What each effect of the server adds to a measure of its registers, or takes from it, adds up over the
/// elements that the desk's pass has consumed. So what is left and what was sold make what there was.
pub fn elements_add_up()
    ensures raised { ServesRaised }
    ensures lowered { ServesLowered }
{}

/// What each effect adds to a measure of the registers for the outputs that it makes adds up over the outputs
/// that were committed.
pub fn outputs_add_up()
    ensures { ServesRaisedByOutputs }
{}

/// A measure of the registers that no effect lowers is as large as it was, or larger.
pub fn measures_rise()
    ensures { ServesNeverLower }
{}

/// A test of the registers that each effect preserves is passed as it was when the desk was made.
pub fn tests_stay_passed()
    ensures { ServesPreserved }
{}

/// Where the server follows a recipe, what its desk has served is the fold of the recipe over the elements
/// that it committed.
pub fn serves_recipe()
    ensures { ServesRecipe }
{}

/// What a desk commits are the drafts of the recipe's effect, and it declines what the recipe declines.
pub fn recipe_turns()
    ensures finishes { RecipeFinishes }
    ensures declines { RecipeDeclines }
{}
