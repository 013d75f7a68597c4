// Which jobs of the job bytes fall below their stated part, written into the caller's buffer.
ghost use Rattle.std.specs.Prelude.{◌≡◌, ◌+◌, ◌*◌, ◌≤◌, length};
ghost use Rattle.text.specs.Written.{written};
ghost use Rattle.entry.specs.Below.{answer_bytes, answers_upto};
ghost use Rattle.entry.specs.Promise.{BelowPromise, BelowSparePromise, BelowEntryPromise};

use crate::jobs::list_from;
use job::{Refusal, number_of};
use place::Setting;
use shortfall::Below;
use text::inner::put_word;

// One job's 12 bytes, from the place `at` on; answers the place after them.
fn put_below(buf: &mut [u8], at: usize, below: Below) -> usize
    requires { at + 12 ≤ length buf.old }
    ensures value { result ≡ at + 12 }
    ensures buf_after { buf.new ≡ written buf.old at (answer_bytes below) }
{
    let short_at = put_word(buf, at, below.windows);
    let first_at = put_word(buf, short_at, below.short);
    // Never is told as the clock's limit, a slot that is not run.
    put_word(buf, first_at, below.first.unwrap_or(u32::MAX))
}

// The bytes of the jobs, from the buffer's start on. Not over chunks_exact_mut(12), which was
// tried: once that borrow is over, a proof knows the buffer's length and not its bytes.
fn put_answers(buf: &mut [u8], jobs: &[Below])
    requires { length jobs.now * 12 ≤ length buf.old }
    ensures { buf.new ≡ written buf.old 0 (answers_upto jobs.now (length jobs.now)) }
{
    let mut end = 0;
    for below in jobs {
        end = put_below(buf, end, *below);
    }
}

// Tests 14, 15, 1 to 6, 8, 12. Refused, it changes no byte.
#[tactic(auto, using(crate::proofs::BelowLaws::told_few))]
pub fn below(jobs: &[u8], setting: Setting, buf: &mut [u8]) -> Result<(), Refusal>
    ensures { BelowPromise jobs.now setting buf.old result buf.new }
{
    let list = list_from(jobs)?;
    let judgement = shortfall::shortfall(list, setting)?;
    if buf.len() < list.count * 12 {
        return Err(Refusal::BufferTooShort);
    }
    put_answers(buf, &judgement.jobs[..list.count]);
    Ok(())
}

// 14 goes before 15, which is also for a `spare` that is not 0 or 1.
fn with_spare(
    jobs: &[u8],
    order: u32,
    model: u32,
    spare: u32,
    buf: &mut [u8],
) -> Result<(), Refusal>
    ensures { BelowSparePromise jobs.now order model spare buf.old result buf.new }
{
    if spare > 1 {
        list_from(jobs)?;
        return Err(Refusal::OrderOrModel);
    }
    let setting = Setting {
        order,
        model,
        spare: spare == 1,
    };
    below(jobs, setting, buf)
}

// Returns 0 or the refusal's number.
pub fn filbertoss_below(jobs: &[u8], order: u32, model: u32, spare: u32, buf: &mut [u8]) -> u32
    ensures { BelowEntryPromise jobs.now order model spare buf.old result buf.new }
{
    number_of(with_spare(jobs, order, model, spare, buf))
}
