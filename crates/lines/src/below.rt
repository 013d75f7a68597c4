// The line of a judged job, and the line after the jobs.
ghost use Rattle.std.specs.Prelude.{◌≡◌, ◌+◌, ◌≤◌, ◌++◌, length};
ghost use Rattle.lines.specs.Promise.{JobLinePromise, FallenLinePromise};
ghost use Rattle.lines.specs.Below.{fall_text};

use crate::Line;
use crate::parts::put_labelled;
use shortfall::Below;

// 'never below', or 'below in A of B windows a cycle, first in slot S'
// (Room is asked for as in `parts`.)
fn put_fall(line: &mut Line, below: Below)
    requires { length line.old + length (fall_text below.short below.windows below.first) ≤ 192 }
    ensures { line.new ≡ line.old ++ fall_text below.short below.windows below.first }
{
    match below.first {
        None => line.put(b" never below\n"),
        Some(slot) => {
            put_labelled(line, b" below in ", u64::from(below.short));
            put_labelled(line, b" of ", u64::from(below.windows));
            put_labelled(line, b" windows a cycle, first in slot ", u64::from(slot));
            line.put(b"\n");
        }
    }
}

#[tactic(auto, using(crate::proofs::LengthLaws::parts), unfolding(crate::specs::Below::below_text))]
pub fn job_line(job: usize, below: Below) -> Line
    ensures { JobLinePromise job below result }
{
    let mut line = Line::new();
    put_labelled(&mut line, b"job ", job as u64);
    put_fall(&mut line, below);
    line
}

// 'no job falls below', or 'N of M jobs fall below'
#[tactic(auto, using(crate::proofs::LengthLaws::parts), unfolding(crate::specs::Below::fallen_text))]
pub fn fallen_line(fallen: usize, jobs: usize) -> Line
    ensures { FallenLinePromise fallen jobs result }
{
    let mut line = Line::new();
    if fallen == 0 {
        line.put(b"no job falls below\n");
        return line;
    }
    line.put_decimal(fallen as u64);
    put_labelled(&mut line, b" of ", jobs as u64);
    line.put(b" jobs fall below\n");
    line
}
