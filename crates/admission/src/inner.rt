// Cycle and load of a list whose check has passed, so that no sum or product can wrap; `verdict`
// stands above them and asks for nothing.
ghost use Rattle.std.specs.Prelude.{◌≡◌, ◌<◌, ◌≤◌};
ghost use Rattle.job.specs.Limit.{cycle_most};
ghost use Rattle.job.specs.Window.{window_of};
ghost use Rattle.admission.specs.Cycle.{lcm, within_told, cycle_told, told_cycle};
ghost use Rattle.admission.specs.Load.{share_of, load_of};

use crate::divisor::common_divisor;
use job::{CheckedJob, CheckedList, Job, Refusal};
use std::marker::Model;

// A cycle within its limit; in a clause it is the number of its slots.
#[derive(Clone, Copy)]
pub struct Cycle {
    pub slots: u32,
}

impl Model for Cycle {
    ghost use Rattle.std.specs.Prelude.{ℕ, ◌≤◌};
    ghost use Rattle.job.specs.Limit.{cycle_most};

    ghost Value = { ℕ };

    ghost view = { λ c. c.slots };

    ghost invariant = { λ c. c.slots ≤ cycle_most };

    ghost inverse = { λ n. record { slots = n } };
}

impl Cycle {
    // The least common multiple of the cycle and a job's window.
    #[tactic(auto, unfolding(crate::specs::Cycle::within_told))]
    fn joined(self, job: CheckedJob) -> Result<Cycle, Refusal>
        ensures { told_cycle result ≡ within_told (lcm self (window_of job)) }
    {
        let joined = common_multiple(self.slots, job.window());
        if Job::CYCLE_MOST < joined {
            return Err(Refusal::CycleTooLong);
        }
        Ok(Cycle {
            slots: joined as u32,
        })
    }
}

fn common_multiple(a: u32, b: u32) -> u64
    requires { 0 < b }
    ensures { result ≡ lcm a b }
{
    let a = u64::from(a);
    let b = u64::from(b);
    a / common_divisor(a, b) * b
}

// mC (H / kT), a job's part of the load of H slots.
fn share(job: CheckedJob, cycle: Cycle) -> u32
    ensures value { result ≡ share_of job cycle }
    ensures within { result ≤ cycle_most }
{
    job.job.m * job.job.c * (cycle.slots / job.window())
}

// The least common multiple of all windows. Once it is above the limit it stays so.
pub fn common_cycle(list: CheckedList) -> Result<Cycle, Refusal>
    ensures { told_cycle result ≡ cycle_told list }
{
    let mut cycle = Cycle { slots: 1 };
    for at in 0..list.list.count {
        cycle = cycle.joined(list.job(at))?;
    }
    Ok(cycle)
}

// The load of a cycle.
#[tactic(auto, using(crate::proofs::LoadLaws::load_none, crate::proofs::LoadLaws::load_more))]
pub fn load(list: CheckedList, cycle: Cycle) -> u32
    ensures { result ≡ load_of list cycle }
{
    let mut sum: u32 = 0;
    for at in 0..list.list.count {
        sum += share(list.job(at), cycle);
    }
    sum
}
