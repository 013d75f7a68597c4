// The choice: the candidate that none is before, the lower number where two are equal.
ghost use Rattle.run.specs.Promise.{ChoosePromise};

use crate::checked::CheckedState;
use place::inner::choice::Held;
use place::inner::sound::Sound;

impl CheckedState {
    // The number of the place chosen, or of no place where there is no candidate. It is the number that
    // `Held` keeps and no `Option`, for the reason given there.
    pub fn choose(self) -> usize
        ensures { ChoosePromise self result }
    {
        let mut best = Held::nobody();
        for at in 0..self.state.count {
            let q = Sound {
                setting: self.state.setting,
                place: self.state.places[at],
            };
            best = best.better(at, q);
        }
        best.at
    }
}
