// The tally of recipes finished and recipes refused, station by station, which goes in with a call and comes back with its answer.
#![tactic(auto)]

ghost use Rattle.model.specs.Contract.{told};
ghost use Rattle.model.specs.Basics.{pick};
ghost use Rattle.model.specs.Tally.{counted_at, finished_at, moved, named, refused_at};
ghost use Rattle.tally.specs.Tallies.{tallied_by, tally_of};
ghost use Rattle.std.specs.Prelude.{◌≡◌, ltb};

use model::ListAnswer;

// The counts of stations 0 to 15, each at its station's place and each stopping at its largest value.
#[derive(Drop)]
pub struct Tally {
    pub finished: [u64; 16],
    pub refused: [u64; 16],
}

// One more of a station, unless its count stands at its largest value. One over 15 has no counts.
#[tactic(auto, using(crate::proofs::TallyLaws::no_count, crate::proofs::TallyLaws::count_stored))]
fn count(counts: &mut [u64; 16], station: u32)
    ensures { counts.new ≡ pick (ltb 15 station) counts.old (counted_at station counts.old) }
{
    if station < 16 {
        let at = station as usize;
        counts[at] = counts[at].saturating_add(1);
    }
}

impl Tally {
    // The tally after an accepted recipe of a station. One over 15 has no counts.
    #[tactic(auto, using(crate::proofs::TallyLaws::finished_counted))]
    pub fn with_finished(self, station: u32) -> Self
        ensures { tally_of result ≡ moved (named station (finished_at station)) (tally_of self) }
    {
        let mut next = self;
        count(&mut next.finished, station);
        next
    }

    // The tally after a refused one.
    #[tactic(auto, using(crate::proofs::TallyLaws::refused_counted))]
    pub fn with_refused(self, station: u32) -> Self
        ensures { tally_of result ≡ moved (named station (refused_at station)) (tally_of self) }
    {
        let mut next = self;
        count(&mut next.refused, station);
        next
    }
}

// A recipe's answer, with the tally after it.
#[derive(Drop)]
pub struct RecipeAnswer {
    pub answer: ListAnswer,
    pub tally: Tally,
}

// The answer with the tally that it leaves, of a recipe of this station.
#[tactic(auto, unfolding(model::specs::Contract::told, crate::specs::Tallies::outcome_of, model::specs::Tally::move_of, model::specs::Tally::outcome_at))]
pub fn settle(tally: Tally, station: u32, answer: ListAnswer) -> RecipeAnswer
    ensures answer_value { result.answer ≡ answer }
    ensures tally_value { tally_of result.tally ≡ tallied_by station (told answer) (tally_of tally) }
{
    let tally = match answer {
        Ok(_) => tally.with_finished(station),
        Err(_) => tally.with_refused(station),
    };
    RecipeAnswer { answer, tally }
}
