// What the C entry of recipes refuses by the sizes. An inner crate.
#![tactic(auto)]

ghost use Rattle.std.specs.Prelude.{List, ◌≡◌};
ghost use Rattle.entry.specs.Entry.{Numbers};
ghost use Rattle.entry.specs.Misfits.{Tested, misfit_by};
ghost use Rattle.entry_recipe.specs.Recipe.{recipe_size_refusal};

use entry::sizes::{Misfit, Sizes};

// A tally that is too short, or what the sizes refuse.
pub fn recipe_refusal(sizes: Sizes, counts: usize, tally: usize) -> Result<(), Misfit>
    ensures { (ss : List Numbers) → Tested ss sizes → misfit_by result ≡ recipe_size_refusal ss counts tally }
{
    if tally < 256 {
        return Err(Misfit::Ragged);
    }
    sizes.refusal(counts, 32)
}
