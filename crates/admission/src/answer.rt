// What admission answers.
ghost use Rattle.admission.specs.Promise.{CyclePromise, LoadPromise};

use job::Refusal;

#[derive(Clone, Copy, Debug, PartialEq, Eq)]
pub struct Admitted {
    pub cycle: u64,
    pub load: u64,
}

// 'Admitted means load ≤ H; cycle and load are both returned.'
pub type Admission = Result<Admitted, Refusal>;

// 'Cycle and load are 0 in each refusal but 9, which returns both.'
#[tactic(auto, unfolding(crate::specs::Answer::cycle_returned, crate::specs::Answer::load_returned))]
pub fn amounts(answer: Admission) -> Admitted
    ensures cycle { CyclePromise answer result.cycle }
    ensures load { LoadPromise answer result.load }
{
    match answer {
        Ok(admitted) => admitted,
        Err(Refusal::Overload { cycle, load }) => Admitted { cycle, load },
        Err(_) => Admitted { cycle: 0, load: 0 },
    }
}
