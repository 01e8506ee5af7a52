// What a recipe takes, and what refuses it before its steps. An inner crate: its callers meet what it asks.
#![tactic(auto)]

ghost use Rattle.column.specs.Columns.{column_in, values_in};
ghost use Rattle.model.specs.Answers.{refused_by};
ghost use Rattle.model.specs.Column.{row_count};
ghost use Rattle.recipe_refusal.specs.Refused.{recipe_in, recipe_refusal};
ghost use Rattle.std.specs.Prelude.{◌*◌, ◌≡◌, eqb, length, not};

use codes::check;
use column::elements::ValueColumn;
use column::lists::ListColumn;
use model::Refusal;
use model::offsets::Offset;

// A recipe's numbers, four a step, and how many argument columns it is lent.
#[derive(Clone, Copy)]
pub struct Recipe<'a> {
    pub numbers: &'a [u32],
    pub columns: usize,
}

// What a recipe reads: its list, the second list, which serves union and intersect, and the argument columns, one after another.
#[derive(Clone, Copy)]
pub struct Inputs<'a, O> {
    pub list: ListColumn<'a, O>,
    pub second: ListColumn<'a, O>,
    pub arguments: ValueColumn<'a>,
}

impl<O: Offset> Inputs<'_, O> {
    // Whether the arguments are not one value for each row in each column.
    fn has_wrong_length(self, columns: usize) -> bool
        ensures { result ≡ not (eqb (length self.entry.arguments.values.now) (columns * row_count (column_in O.numbers self.entry.list).offsets)) }
    {
        let n = self.list.row_count();
        columns.checked_mul(n) != Some(self.arguments.values.len())
    }
}

// A malformed recipe, else a refusal of the columns: 13, 1, 2 or 3. The arguments' starting bit is tested even where there are no columns.
pub fn refusal<O: Offset>(recipe: Recipe, inputs: Inputs<O>) -> Result<(), Refusal>
    ensures { refused_by result ≡ recipe_refusal (recipe_in recipe.entry) (column_in O.numbers inputs.entry.list) (column_in O.numbers inputs.entry.second) (values_in inputs.entry.arguments) }
{
    if check::is_malformed(recipe.numbers, recipe.columns) {
        return Err(Refusal::MalformedRecipe);
    }
    let arguments = inputs.arguments;
    if arguments.bits.is_start_over() {
        return Err(Refusal::BadStartingBit);
    }
    set_checks::lists_refusal(inputs.list, inputs.second)?;
    if arguments.bits.is_short(arguments.values.len()) {
        return Err(Refusal::ShortBitmap);
    }
    if inputs.list.row_count() != inputs.second.row_count() {
        return Err(Refusal::RowCountsDiffer);
    }
    if inputs.has_wrong_length(recipe.columns) {
        return Err(Refusal::RowCountsDiffer);
    }
    Ok(())
}
