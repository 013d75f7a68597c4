// 'A refusal prints only "refused N", with " job J" for 3 to 6 or " at P" for 13.'
ghost use Rattle.std.specs.Prelude.{◌≡◌, ◌+◌, ◌≤◌, ◌++◌, length};
ghost use Rattle.job.specs.Told.{told};
ghost use Rattle.lines.specs.Promise.{RefusalLinePromise};
ghost use Rattle.lines.specs.Refused.{value_text};

use crate::Line;
use crate::parts::put_labelled;
use job::Refusal;

// The value that the line names, after its label; nothing for the other rows.
// (Room is asked for as in `parts`.)
fn put_value(line: &mut Line, refusal: Refusal)
    requires { length line.old + length (value_text (told refusal)) ≤ 192 }
    ensures { line.new ≡ line.old ++ value_text (told refusal) }
{
    match refusal {
        Refusal::Period { job }
        | Refusal::Service { job }
        | Refusal::Window { job }
        | Refusal::Share { job } => put_labelled(line, b" job ", job as u64),
        Refusal::SheetForm { place } => put_labelled(line, b" at ", place as u64),
        _ => (),
    }
}

#[tactic(auto, using(crate::proofs::LengthLaws::parts), unfolding(crate::specs::Refused::refusal_text))]
pub fn refusal_line(refusal: Refusal) -> Line
    ensures { RefusalLinePromise refusal result }
{
    let mut line = Line::new();
    put_labelled(&mut line, b"refused ", u64::from(refusal.number()));
    put_value(&mut line, refusal);
    line.put(b"\n");
    line
}
