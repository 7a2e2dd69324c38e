// What the methods of `State` answer: the counts with what was found, or a refusal.
ghost use Rattle.std.specs.Prelude.{◌≡◌};
ghost use Rattle.producer.specs.Answers.{refused_of, ended_answer};

use crate::State;
use crate::codes::Rule;
use crate::rows::Refs;
use ast::refusals::Refusal;

// A refusal, with the counts that it leaves.
#[derive(Clone, Copy)]
pub struct Refused {
    pub state: State,
    pub refusal: Refusal,
}

// The counts with what was found, or a refusal.
pub type Answer<T> = Result<(State, T), Refused>;

// What is inferred: a type, the rows to cite and the rule.
pub type Inferred = (u32, Refs, Rule);

// A root reduction: the term, its type and the row of the equation.
pub type Reduced = (u32, u32, u32);

impl State {
    // The refusal, which leaves these counts.
    #[tactic(auto, unfolding(crate::specs::Answers::refused_of))]
    pub fn refused(self, refusal: Refusal) -> Refused
        ensures { result ≡ refused_of self refusal }
    {
        Refused {
            state: self,
            refusal,
        }
    }
}

// A conversion has ended, however it did.
#[tactic(auto, unfolding(crate::specs::Answers::ended_answer, crate::specs::Answers::refused_of, crate::specs::Machine::conversions_of))]
pub fn ended<T>(answer: Answer<T>) -> Answer<T>
    ensures { result ≡ ended_answer answer }
{
    match answer {
        Ok((s, found)) => Ok((s.converting(s.conversions.saturating_sub(1)), found)),
        Err(refused) => {
            let state = refused.state;
            let left = state.converting(state.conversions.saturating_sub(1));
            Err(left.refused(refused.refusal))
        }
    }
}
