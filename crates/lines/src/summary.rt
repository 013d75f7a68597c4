// The line before the slots, and the line after them.
ghost use Rattle.std.specs.Prelude.{◌≡◌, ◌+◌, ◌≤◌, ◌++◌, length};
ghost use Rattle.admission.specs.Answer.{told_admission};
ghost use Rattle.lines.specs.Promise.{AdmissionLinePromise, TotalsLinePromise};
ghost use Rattle.lines.specs.Summary.{verdict_word};

use crate::Line;
use crate::parts::put_labelled;
use admission::{Admission, amounts};
use job::Refusal;
use run::Totals;

// 'the last word replaced by "over", "cycle too long" or "not judged"'
// (Room is asked for as in `parts`.)
fn put_word(line: &mut Line, answer: Admission)
    requires { length line.old + length (verdict_word (told_admission answer).number) ≤ 192 }
    ensures { line.new ≡ line.old ++ verdict_word (told_admission answer).number }
{
    match answer {
        Ok(_) => line.put(b" admitted\n"),
        Err(Refusal::CycleTooLong) => line.put(b" cycle too long\n"),
        Err(Refusal::Overload { .. }) => line.put(b" over\n"),
        Err(_) => line.put(b" not judged\n"),
    }
}

#[tactic(auto, using(crate::proofs::LengthLaws::parts), unfolding(crate::specs::Summary::admission_text))]
pub fn admission_line(answer: Admission) -> Line
    ensures { AdmissionLinePromise answer result }
{
    let both = amounts(answer);
    let mut line = Line::new();
    put_labelled(&mut line, b"cycle ", both.cycle);
    put_labelled(&mut line, b" load ", both.load);
    put_word(&mut line, answer);
    line
}

// 'Last line: totals.'
#[tactic(auto, using(crate::proofs::LengthLaws::parts), unfolding(crate::specs::Summary::totals_text))]
pub fn totals_line(totals: Totals) -> Line
    ensures { TotalsLinePromise totals result }
{
    let mut line = Line::new();
    put_labelled(&mut line, b"given ", u64::from(totals.given));
    put_labelled(&mut line, b" idle ", u64::from(totals.idle));
    put_labelled(&mut line, b" tagged ", totals.tags);
    put_labelled(&mut line, b" short ", totals.shorts);
    line.put(b"\n");
    line
}
