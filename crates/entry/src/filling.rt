// A fresh run of job bytes, written into the caller's buffer.
ghost use Rattle.entry.specs.Promise.{FillPromise, FillEntryPromise};

use crate::jobs::list_from;
use job::{Refusal, number_of};
use place::Setting;

// Buffer, offset and n as C hands them over. Tests 14, 15, 1 to 6, 12, 11. Refused, it changes no byte.
pub fn fill(
    jobs: &[u8],
    setting: Setting,
    buf: &mut [u8],
    offset: usize,
    n: usize,
) -> Result<(), Refusal>
    ensures { FillPromise jobs.now setting buf.old offset n result buf.new }
{
    let mut started = run::start(list_from(jobs)?, setting);
    started.answer?;
    timetable::write(&mut started.state, buf, offset, n)
}

// Returns 0 or the refusal's number; 'the C entry keeps spare off'.
pub fn filbertoss_fill(
    jobs: &[u8],
    order: u32,
    model: u32,
    buf: &mut [u8],
    offset: usize,
    n: usize,
) -> u32
    ensures { FillEntryPromise jobs.now order model buf.old offset n result buf.new }
{
    number_of(fill(jobs, Setting::of(order, model), buf, offset, n))
}
