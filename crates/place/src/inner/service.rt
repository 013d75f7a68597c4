// One place over one slot: what it is owed, whether it may be served, and what the slot makes of it.
#![tactic(auto, using(crate::proofs::BoundLaws::window_low, crate::proofs::BoundLaws::gone_high, crate::proofs::BoundLaws::sum_high, crate::proofs::BoundLaws::overdue_sum, crate::proofs::BoundLaws::spare_is, crate::proofs::BoundLaws::too_early, crate::proofs::PlaceLaws::served_sound, crate::proofs::CycleLaws::ends_at_lem), unfolding(crate::specs::Place::finished_of, crate::specs::Place::owed_of, crate::specs::Place::window_left, crate::specs::Place::left_of, crate::specs::Place::eligible_of, crate::specs::Choice::takes_spare, crate::specs::Choice::room_of, crate::specs::Place::tags_of, crate::specs::Place::first_tagged, crate::specs::Place::served_of, crate::specs::Place::given_of, crate::specs::Place::short_of, crate::specs::Place::window_ends, crate::specs::Place::turned_of, crate::specs::Place::finishes_of, crate::specs::Place::passed_of))]

ghost use Rattle.std.specs.Prelude.{◌≡◌, true, false, ltb};
ghost use Rattle.place.specs.Place.{finished_of, owed_of, window_left, left_of, eligible_of, numerator_of, overdue_of, finishes_of, tags_of, first_tagged, served_of, given_of, tagged_of, turned_of, short_of, moved_of, passed_of};
ghost use Rattle.place.specs.Choice.{takes_spare, candidate_of};

use crate::inner::sound::Sound;
use crate::record::Place;

// A place after the slot, and the sets that it goes into.
#[derive(Clone, Copy)]
pub struct Outcome {
    pub place: Place,
    pub tagged: bool,
    pub short: bool,
}

// A place after a slot whose tag nobody asks for: a flag that is not computed (with it the loop over a
// cycle took 300 instructions a slot of four jobs, without it 235: docs/DECISIONS.md, 64).
#[derive(Clone, Copy)]
pub struct Passage {
    pub place: Place,
    pub short: bool,
}

impl Sound {
    // The instances finished in this window.
    fn finished(self) -> u32
        ensures { result ≡ finished_of self.setting self.place }
    {
        if self.setting.by_units() {
            return self.place.at.u / self.place.job.c;
        }
        self.place.at.s
    }

    // m' of an eligible place: it is above 0, so that nothing wraps. No type says that a place is
    // eligible: it would be made in `better` alone, for one call, and be longer than the three clauses.
    pub(crate) fn owed(self) -> u32
        requires { eligible_of self.setting self.place ≡ true }
        ensures { result ≡ owed_of self.setting self.place }
    {
        self.place.job.m - self.finished()
    }

    // k'T, the slots from this period's start to the window's end.
    pub(crate) fn window_left(self) -> u32
        ensures { result ≡ window_left self.place }
    {
        let q = self.place;
        (q.job.k - q.at.p + 1) * q.job.t
    }

    // k'T − e, the slots from now to the window's end.
    pub(crate) fn left(self) -> u32
        ensures { result ≡ left_of self.place }
    {
        self.window_left() - self.place.at.e
    }

    // 'u < m times C and u < p times C' is u < (the less of m and p) times C: one product.
    pub(crate) fn eligible(self) -> bool
        ensures { result ≡ eligible_of self.setting self.place }
    {
        let q = self.place;
        if self.setting.by_units() {
            let most = if q.at.p < q.job.m { q.at.p } else { q.job.m };
            return q.at.u < most * q.job.c;
        }
        (q.at.s < q.job.m) & (q.at.v < q.job.c)
    }

    // k'T − e m', the numerator over m' of the distance to the virtual deadline.
    pub(crate) fn numerator(self) -> i64
        requires { eligible_of self.setting self.place ≡ true }
        ensures { result ≡ numerator_of self.setting self.place }
    {
        let ahead = self.window_left();
        let gone = self.place.at.e * self.owed();
        (ahead as i64) - (gone as i64)
    }

    // Whether a place that is not eligible may take a spare slot. 'Relaxed: u < pC; original: s < p and v < C'
    // (02): who has that and is not eligible has its m.
    pub(crate) fn takes_spare(self) -> bool
        requires { eligible_of self.setting self.place ≡ false }
        ensures { result ≡ takes_spare self.setting self.place }
    {
        let q = self.place;
        if self.setting.spare {
            if self.setting.by_units() {
                return q.at.u < q.at.p * q.job.c;
            }
            return (q.at.s < q.at.p) & (q.at.v < q.job.c);
        }
        false
    }

    // Whether m' > 0, without the division that m' may take.
    fn lacks(self) -> bool
        ensures { result ≡ ltb 0 (owed_of self.setting self.place) }
    {
        let q = self.place;
        if self.setting.by_units() {
            return q.at.u < q.job.m * q.job.c;
        }
        q.at.s < q.job.m
    }

    // Whether m' > 0 and the virtual deadline is at most the next slot's number: k'T ≤ (e + 1) m', which
    // no m' = 0 meets. Where more than m is finished, m' is 0: nothing is subtracted.
    fn overdue(self) -> bool
        ensures { result ≡ overdue_of self.setting self.place }
    {
        let next = self.place.at.e + 1;
        self.window_left() + next * self.finished() <= next * self.place.job.m
    }

    // Whether one more unit finishes an instance: what is begun, u mod C or v, lacks no other.
    fn finishes(self) -> bool
        ensures { result ≡ finishes_of self.setting self.place }
    {
        let q = self.place;
        let begun = if self.setting.by_units() {
            q.at.u % q.job.c
        } else {
            q.at.v
        };
        begun + 1 == q.job.c
    }

    // Whether the slot tags the place. While more than m periods are left, this one counted, no deadline
    // is that near.
    fn tags(self, chosen: bool) -> bool
        ensures { result ≡ tags_of self.setting self.place chosen }
    {
        let q = self.place;
        if q.at.p + q.job.m <= q.job.k {
            return false;
        }
        if self.overdue() {
            return !(chosen & self.finishes());
        }
        false
    }

    // Whether it does so for the first time in the place's window.
    fn first_tagged(self, chosen: bool) -> bool
        ensures { result ≡ first_tagged self.setting self.place chosen }
    {
        if self.place.at.tag {
            return false;
        }
        self.tags(chosen)
    }

    // One more unit.
    fn served(self) -> Place
        requires { candidate_of self.setting self.place ≡ true }
        ensures { result ≡ served_of self.setting self.place }
    {
        let mut next = self.place;
        if self.setting.by_units() {
            next.at.u += 1;
            return next;
        }
        next.at.v += 1;
        if next.at.v == next.job.c {
            next.at.s += 1;
        }
        next
    }

    // The service of the slot. Its clause is that of `moved` and `passed`, which hand it on: that who is
    // chosen may be served is known of a number beside the place, and no type holds both.
    fn given(self, chosen: bool) -> Sound
        requires { chosen ≡ true → candidate_of self.setting self.place ≡ true }
        ensures setting { result.setting ≡ self.setting }
        ensures place { result.place ≡ given_of self.setting self.place chosen }
    {
        if chosen {
            return Sound {
                setting: self.setting,
                place: self.served(),
            };
        }
        self
    }

    fn tagged(self, tags: bool) -> Sound
        ensures setting { result.setting ≡ self.setting }
        ensures place { result.place ≡ tagged_of self.place tags }
    {
        let mut next = self;
        if tags {
            next.place.at.tag = true;
        }
        next
    }

    // 'A window is short exactly if it ends with m' > 0.' It is asked for the window's end as in `turned`,
    // so that the compiled slot tests for it once.
    fn is_short(self) -> bool
        ensures { result ≡ short_of self.setting self.place }
    {
        let q = self.place;
        if q.at.e + 1 < q.job.t {
            return false;
        }
        if q.at.p < q.job.k {
            return false;
        }
        self.lacks()
    }

    // The slot passes: 'Where e reaches T the period ends; where the k-th period ends, the window ends.'
    fn turned(self) -> Place
        ensures { result ≡ turned_of self.place }
    {
        let q = self.place;
        let mut next = q;
        let e = q.at.e + 1;
        if e < q.job.t {
            next.at.e = e;
            return next;
        }
        next.at.e = 0;
        next.at.v = 0;
        if q.at.p < q.job.k {
            let p = q.at.p + 1;
            next.at.p = p;
            return next;
        }
        next.at.p = 1;
        next.at.u = 0;
        next.at.s = 0;
        next.at.tag = false;
        next
    }

    // All that one slot does to one place: its service, then its tag, then the slot passes.
    pub fn moved(self, chosen: bool) -> Outcome
        requires { chosen ≡ true → candidate_of self.setting self.place ≡ true }
        ensures { result ≡ moved_of self.setting self.place chosen }
    {
        let first = self.first_tagged(chosen);
        let worked = self.given(chosen).tagged(first);
        // Asked before the place turns: the writer's slot then tests for the window's end once.
        let short = worked.is_short();
        Outcome {
            place: worked.turned(),
            tagged: first,
            short,
        }
    }

    // The same with the tag left as it is, where nobody asks for it: no choice and no short window depends
    // on it.
    pub fn passed(self, chosen: bool) -> Passage
        requires { chosen ≡ true → candidate_of self.setting self.place ≡ true }
        ensures { result ≡ passed_of self.setting self.place chosen }
    {
        // Turned first, other than in `moved`: the loop over a cycle takes a tenth fewer instructions so.
        let worked = self.given(chosen);
        Passage {
            place: worked.turned(),
            short: worked.is_short(),
        }
    }
}
