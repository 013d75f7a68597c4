// Job bytes: 6 a job, C and T 16 bits each, low byte first, then m and k.
ghost use Rattle.std.specs.Prelude.{◌≡◌, ◌*◌, ◌+◌, ◌≤◌, length};
ghost use Rattle.entry.specs.JobBytes.{pair_at, job_from};
ghost use Rattle.entry.specs.Promise.{ListFromPromise};

use job::{Job, JobList, Refusal};

// The 16 bits that stand at a place, low byte first: a function, since a job has two such numbers.
fn pair_at(bytes: &[u8], at: usize) -> u32
    requires { at + 2 ≤ length bytes.now }
    ensures { result ≡ pair_at bytes.now at }
{
    u32::from(u16::from_le_bytes([bytes[at], bytes[at + 1]]))
}

fn job_from(bytes: &[u8], number: usize) -> Job
    requires { number * 6 + 6 ≤ length bytes.now }
    ensures { result ≡ job_from bytes.now number }
{
    let at = number * 6;
    Job {
        c: pair_at(bytes, at),
        t: pair_at(bytes, at + 2),
        m: u32::from(bytes[at + 4]),
        k: u32::from(bytes[at + 5]),
    }
}

// The list that the bytes hold, or row 14 (no `TryFrom`: list and bytes are types of others). Bytes behind
// the sixteenth job are counted and not read.
pub fn list_from(bytes: &[u8]) -> Result<JobList, Refusal>
    ensures { ListFromPromise bytes.now result }
{
    if bytes.len() % 6 != 0 {
        return Err(Refusal::JobBytes);
    }
    Ok(JobList::by(bytes.len() / 6, |at| job_from(bytes, at)))
}
