// What a grading decides by numbers and answers alone.
ghost use Rattle.grade_rows.specs.Grades.{answered, early_of};
ghost use Rattle.model.specs.Answers.{refused_by};
ghost use Rattle.model.specs.Basics.{pick};
ghost use Rattle.std.specs.Prelude.{◌-◌, eqb, ◌≡◌};

use model::{ListAnswer, Refusal};

// A run of at least 0 elements, then too few grades, of a grading by k, of a column of so many offsets into a slice of so many grades.
#[tactic(auto, unfolding(crate::specs::Grades::early_of))]
pub fn early_refusal(k: u64, slots: usize, grades: usize) -> Result<(), Refusal>
    ensures { refused_by result ≡ early_of k (slots - 1) grades }
{
    let n = slots.saturating_sub(1);
    if k == 0 {
        return Err(Refusal::ZeroRun);
    }
    if grades < n {
        return Err(Refusal::ShortOutput);
    }
    Ok(())
}

// The station that a graded recipe is run for: none of the sixteen where its grading is refused early, so that it counts for nobody and only
// clears the trays.
pub fn station_for(early: Result<(), Refusal>, station: u32) -> u32
    ensures { result ≡ pick (eqb (refused_by early) 0) station 16 }
{
    match early {
        Ok(()) => station,
        Err(_) => 16,
    }
}

// The answer of a graded recipe: its early refusal, or what its run answered.
#[tactic(auto, unfolding(crate::specs::Grades::answered))]
pub fn answer_for(early: Result<(), Refusal>, answer: ListAnswer) -> ListAnswer
    ensures { result ≡ answered early answer }
{
    early?;
    answer
}
