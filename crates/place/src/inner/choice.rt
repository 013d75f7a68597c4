// How far from now a place is, and which of two is chosen first: the lower number where they are equal.
// An eligible place is nearer than one that may take a spare slot.
#![tactic(auto, using(crate::proofs::BoundLaws::left_high, crate::proofs::BoundLaws::window_small, crate::proofs::BoundLaws::spare_small, crate::proofs::SignedLaws::small_pos), unfolding(crate::specs::Choice::due_away, crate::specs::Choice::better_of, crate::specs::Choice::candidate_of, crate::specs::Choice::distance_of))]

ghost use Rattle.std.specs.Prelude.{◌≡◌, true, cond};
ghost use Rattle.place.specs.Place.{eligible_of};
ghost use Rattle.place.specs.Fraction.{Small};
ghost use Rattle.place.specs.Choice.{held_at, nobody, ratio_of, due_away, spare_away, nearer_of, better_of};

use crate::inner::sound::Sound;
use crate::setting::Setting;
use job::{Job, JobList};
use std::marker::Model;

// The fraction num / den, so small that two are compared by products that do not wrap.
#[derive(Clone, Copy)]
pub struct Fraction {
    pub num: i64,
    pub den: u64,
}

impl Model for Fraction {
    ghost use Rattle.place.specs.Fraction.{Ratio, Small};

    ghost Value = { Ratio };

    ghost view = { λ a. record { num = a.num; den = a.den } };

    ghost invariant = { λ a. Small (record { num = a.num; den = a.den }) };

    ghost inverse = { λ d. record { num = d.num; den = d.den } };
}

impl Fraction {
    // The most slots of a window: no deadline is farther away.
    pub const WINDOW_MOST: u32 = Job::K_MOST * Job::T_MOST;

    fn ratio(num: u32, den: u32) -> Fraction
        requires { Small (ratio_of num den) }
        ensures { result ≡ ratio_of num den }
    {
        Fraction {
            num: num as i64,
            den: den as u64,
        }
    }

    // 'two are compared exactly as fractions'
    fn nearer(self, than: Fraction) -> bool
        ensures { result ≡ nearer_of self than }
    {
        let x = self.num;
        let y = than.num;
        let dx = than.den as i64;
        let dy = self.den as i64;
        x * dx < y * dy
    }
}

impl Sound {
    // 'Order V: lowest virtual deadline'; 'Order W: soonest window end, k'T − e slots away'. The order is a
    // number of the setting, for the reason at `Setting::by_units`.
    fn due_away(self) -> Fraction
        requires { eligible_of self.setting self.place ≡ true }
        ensures { result ≡ due_away self.setting self.place }
    {
        if self.setting.order == Setting::V {
            let num = self.numerator();
            let den = self.owed() as u64;
            return Fraction { num, den };
        }
        Fraction::ratio(self.left(), 1)
    }

    // 'soonest window end first' (02), and farther than any deadline, which is at most a window away.
    fn spare_away(self) -> Fraction
        ensures { result ≡ spare_away self.place }
    {
        Fraction::ratio(Fraction::WINDOW_MOST + self.left(), 1)
    }
}

// A place's number, and its distance from now. Nobody is the number of no place at 1/0, and no `None`:
// with `Option<Held>` the writer took 3 to 18 in 100 instructions more (docs/SPEED.md).
#[derive(Clone, Copy)]
pub struct Held {
    pub at: usize,
    pub away: Fraction,
}

impl Held {
    // The number of no place.
    pub const NO_PLACE: usize = JobList::COUNT_MOST;

    // Nobody yet: farther than any fraction.
    pub fn nobody() -> Held
        ensures { result ≡ nobody }
    {
        Held {
            at: Held::NO_PLACE,
            away: Fraction::ratio(1, 0),
        }
    }

    // The one held, or the place at number `at` where that is nearer.
    fn nearest(self, at: usize, away: Fraction) -> Held
        ensures { result ≡ cond (nearer_of away self.away) (held_at at away) self }
    {
        if away.nearer(self.away) {
            return Held { at, away };
        }
        self
    }

    // The one held after the place at number `at`.
    pub fn better(self, at: usize, q: Sound) -> Held
        ensures { result ≡ better_of q.setting self at q.place }
    {
        if q.eligible() {
            return self.nearest(at, q.due_away());
        }
        if q.takes_spare() {
            return self.nearest(at, q.spare_away());
        }
        self
    }
}
