// The three entries as C calls them, under the names of include/filbertoss.h: each is the function of
// crate `entry` of that name, and promises what that one promises. They are here and there, since a
// crate is a library or a static library.
#![tactic(auto)]

ghost use Rattle.entry.specs.Promise.{AdmitEntryPromise, FillEntryPromise, BelowEntryPromise};

#[unsafe(no_mangle)]
pub extern "C" fn filbertoss_admit(jobs: &[u8], model: u32) -> u32
    ensures { AdmitEntryPromise jobs.now model result }
{
    entry::filbertoss_admit(jobs, model)
}

#[unsafe(no_mangle)]
pub extern "C" fn filbertoss_fill(
    jobs: &[u8],
    order: u32,
    model: u32,
    buf: &mut [u8],
    offset: usize,
    n: usize,
) -> u32
    ensures { FillEntryPromise jobs.now order model buf.old offset n result buf.new }
{
    entry::filbertoss_fill(jobs, order, model, buf, offset, n)
}

#[unsafe(no_mangle)]
pub extern "C" fn filbertoss_below(
    jobs: &[u8],
    order: u32,
    model: u32,
    spare: u32,
    buf: &mut [u8],
) -> u32
    ensures { BelowEntryPromise jobs.now order model spare buf.old result buf.new }
{
    entry::filbertoss_below(jobs, order, model, spare, buf)
}
