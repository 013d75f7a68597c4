// The program: a sheet on standard input, and on standard output which of its jobs fall below their
// stated part. Every line but `not judged` comes from a proved function; here they are only called
// in order.
#![tactic(auto)]

ghost use Rattle.std.specs.Prelude.{◌+◌, ◌*◌, ◌≤◌, length};
ghost use Rattle.job.specs.Limit.{count_most};

use sheet::Sheet;
use shortfall::Below;
use std::io;

// At most 18 lines of 192 bytes each fit.
type Report = text::Text<4096>;

// A line for each job.
fn put_jobs(out: &mut Report, jobs: &[Below])
    requires { length out.old + 192 * length jobs.now ≤ 4096 }
    ensures { length out.new ≤ length out.old + 192 * length jobs.now }
{
    for (job, below) in jobs.iter().enumerate() {
        out.put(lines::job_line(job, *below).as_slice());
    }
}

fn print_judged(rt: &impl Print, sheet: Sheet) -> io::Result<()>
    requires { sheet.list.count ≤ count_most }
{
    let mut out = Report::new();
    let count = sheet.list.count;
    let admitted = admission::verdict(sheet.list, sheet.setting.model);
    out.put(lines::admission_line(admitted).as_slice());
    match shortfall::shortfall(sheet.list, sheet.setting) {
        Ok(judged) => {
            put_jobs(&mut out, &judged.jobs[..count]);
            out.put(lines::fallen_line(judged.fallen, count).as_slice());
        }
        Err(_) => out.put(b"not judged\n"),
    }
    rt.write_all(out.as_slice())
}

// Reads as `slots` does: each program has a `main` of its own, and the two are a few lines.
fn main(rt: HostRuntime) -> io::Result<()> {
    let mut bytes = [0u8; Sheet::BYTES_MOST + 1];
    let got = input::read_full(&mut rt.stdin(), &mut bytes)?;
    match sheet::read(&bytes[..got]) {
        Ok(sheet) => print_judged(&rt, sheet),
        Err(refusal) => rt.write_all(lines::refusal_line(refusal).as_slice()),
    }
}
