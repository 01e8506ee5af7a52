// The limits of a recipe's steps, over numbers.
ghost use Rattle.bitmap.specs.Reads.{bits_in};
ghost use Rattle.codes.specs.Codes.{step_in};
ghost use Rattle.column.specs.Columns.{values_in};
ghost use Rattle.model.specs.Basics.{tab};
ghost use Rattle.model.specs.Recipe.{step_at};
ghost use Rattle.recipe_limits.specs.Limited.{Counted, Covered, StepsThere, count_at, counts_from, limit_at, limits_from, limits_in};
ghost use Rattle.std.specs.Prelude.{length, min, ◌+◌, ◌-◌, ◌<◌, ◌≡◌, ◌≤◌};

use bitmap::Validity;
use codes::Step;
use column::elements::ValueColumn;
use model::TrayElements;

// What the limit of every step goes by.
#[derive(Clone, Copy)]
pub struct Measured<'a> {
    // Which rows of the first list are valid.
    pub rows: Validity<'a>,
    pub row_count: usize,
    pub arguments: ValueColumn<'a>,
    // How many elements the second list shows.
    pub second: usize,
    // The largest offset.
    pub most: usize,
}

// The sum of two limits, which stops at the largest offset.
fn plus(a: usize, b: usize, most: usize) -> usize
    ensures { result ≡ min most (a + b) }
{
    a.saturating_add(b).min(most)
}

impl Measured<'_> {
    // The count of row r, of the column that begins at value a: none for a row that is null in the first list, for a null count, or for one
    // at or below 0.
    #[tactic(auto, using(crate::proofs::LimitedLaws::null_count, crate::proofs::LimitedLaws::valid_count))]
    fn count_at(self, a: usize, r: usize) -> usize
        requires covered { Covered self }
        requires there { a + self.row_count ≤ length self.arguments.values.now }
        requires row { r < self.row_count }
        ensures { result ≡ count_at (bits_in self.entry.rows) (values_in self.entry.arguments) a r }
    {
        if !self.rows.is_valid(r, self.row_count) {
            return 0;
        }
        repeat_sums::repeat_count(self.arguments, a + r)
    }

    // The counts of all rows, added up to the largest offset.
    fn counts_over(self, a: usize) -> usize
        requires covered { Covered self }
        requires there { a + self.row_count ≤ length self.arguments.values.now }
        ensures { result ≡ min self.entry.most (counts_from (bits_in self.entry.rows) (values_in self.entry.arguments) a self.entry.row_count) }
    {
        let mut sum: usize = 0;
        for r in 0..self.row_count {
            sum = plus(sum, self.count_at(a, r), self.most);
        }
        sum
    }

    // The limit of a step, where as many elements came in.
    #[tactic(auto, unfolding(crate::specs::Limited::limit_at))]
    fn step_limit(self, step: Step, came: usize) -> usize
        requires covered { Covered self }
        requires there { Counted (step_in step) self.row_count (length self.arguments.values.now) }
        requires small { came ≤ self.most }
        ensures { result ≡ limit_at self.entry.most (bits_in self.entry.rows) self.entry.row_count (values_in self.entry.arguments) self.entry.second step.code step.first came }
    {
        if step.code == 6 {
            return self.counts_over(step.first * self.row_count);
        }
        if step.code == 9 {
            return plus(came, self.second, self.most);
        }
        came
    }

    // The limits of the steps from step k on, left of them: the first of them writes tray one unless it is the last, and to those after it the
    // trays change places.
    pub fn steps_limits(self, numbers: &[u32], k: usize, left: usize, came: usize) -> TrayElements
        requires covered { Covered self }
        requires steps { StepsThere numbers.now self.row_count (length self.arguments.values.now) k left }
        requires small { came ≤ self.most }
        ensures { limits_in result ≡ limits_from self.entry.most (bits_in self.entry.rows) self.entry.row_count (values_in self.entry.arguments) self.entry.second (step_at numbers.now k) (tab (step_at numbers.now) (k + 1) (left - 1)) came }
    {
        let m = self.step_limit(codes::step_at(numbers, k), came);
        if left == 1 {
            return TrayElements {
                one: 0,
                two: 0,
                output: m,
            };
        }
        let later = self.steps_limits(numbers, k + 1, left - 1, m);
        TrayElements {
            one: m.max(later.two),
            two: later.one,
            output: later.output,
        }
    }
}
