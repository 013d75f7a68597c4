// Row 10 for one place: whether a place of any content is in its ranges. It is no `Sound` yet, so that
// the setting is passed beside it.
#![tactic(auto, unfolding(crate::specs::Range::job_passes, crate::specs::Range::within_m, crate::specs::Range::units_in_range, crate::specs::Range::instances_in_range, crate::specs::Range::service_in_range, crate::specs::Range::progress_in_range, crate::specs::Range::place_blank, crate::specs::Range::place_in_range))]

ghost use Rattle.std.specs.Prelude.{◌≡◌, ◌*◌, leb};
ghost use Rattle.place.specs.Range.{job_passes, within_m, units_in_range, instances_in_range, service_in_range, progress_in_range, place_blank, place_in_range};

use crate::record::Place;
use crate::setting::Setting;
use job::Job;

// 'its jobs pass 1 to 6'
fn job_passes(job: Job) -> bool
    ensures { result ≡ job_passes job }
{
    job.check(0).is_ok()
}

// u ≤ n C, widened so that no product wraps.
fn at_most(u: u32, n: u32, c: u32) -> bool
    ensures { result ≡ leb u (n * c) }
{
    (u as u64) <= (n as u64) * (c as u64)
}

// 'u ≤ .. mC', 's ≤ m', with spare off: an unused counter is 0, and so within m too.
fn within_m(setting: Setting, q: Place) -> bool
    ensures { result ≡ within_m setting q }
{
    setting.spare | (at_most(q.at.u, q.job.m, q.job.c) & (q.at.s <= q.job.m))
}

// 'u ≤ .. pC (relaxed)', 'unused counters are 0'
fn units_in_range(q: Place) -> bool
    ensures { result ≡ units_in_range q }
{
    at_most(q.at.u, q.at.p, q.job.c) & (q.at.s == 0) & (q.at.v == 0)
}

// 'v ≤ C and s ≤ p−1, plus one if v = C, with s ≥ 1 if v = C (original)', 'unused counters are 0'
fn instances_in_range(q: Place) -> bool
    ensures { result ≡ instances_in_range q }
{
    if q.at.v == q.job.c {
        return (1 <= q.at.s) & (q.at.s <= q.at.p) & (q.at.u == 0);
    }
    (q.at.v <= q.job.c) & (q.at.s < q.at.p) & (q.at.u == 0)
}

fn service_in_range(setting: Setting, q: Place) -> bool
    ensures { result ≡ service_in_range setting q }
{
    if setting.by_units() {
        return within_m(setting, q) & units_in_range(q);
    }
    within_m(setting, q) & instances_in_range(q)
}

fn progress_in_range(setting: Setting, q: Place) -> bool
    ensures { result ≡ progress_in_range setting q }
{
    (q.at.e < q.job.t) & (1 <= q.at.p) & (q.at.p <= q.job.k) & service_in_range(setting, q)
}

// 'places past the last job are all zero'
fn place_blank(q: Place) -> bool
    ensures { result ≡ place_blank q }
{
    q == Place::blank()
}

pub fn place_in_range(setting: Setting, listed: bool, q: Place) -> bool
    ensures { result ≡ place_in_range setting listed q }
{
    if listed {
        return job_passes(q.job) & progress_in_range(setting, q);
    }
    place_blank(q)
}
