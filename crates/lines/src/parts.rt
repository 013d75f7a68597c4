// Parts of a line. Each asks for room, which the lines' own lengths give: no type does, since each part
// has a length of its own.
ghost use Rattle.std.specs.Prelude.{◌≡◌, ◌+◌, ◌≤◌, ◌++◌, length};
ghost use Rattle.job.specs.Limit.{count_most};
ghost use Rattle.lines.specs.Slot.{choice_text, set_text};
ghost use Rattle.lines.specs.Parts.{labelled};

use crate::Line;
use job::JobList;
use run::Choice;

// A label and a number.
pub(crate) fn put_labelled(line: &mut Line, label: &[u8], x: u64)
    requires { length line.old + length (labelled label.now x) ≤ 192 }
    ensures { line.new ≡ line.old ++ labelled label.now x }
{
    line.put(label);
    line.put_decimal(x);
}

// 'job or -'
pub(crate) fn put_choice(line: &mut Line, choice: Choice)
    requires { length line.old + length (choice_text choice) ≤ 192 }
    ensures { line.new ≡ line.old ++ choice_text choice }
{
    match choice {
        Choice::Given(job) => line.put_decimal(job as u64),
        Choice::Idle => line.put(b"-"),
    }
}

// Each member of a set, ascending, after its label.
#[tactic(auto, using(crate::proofs::SetLaws::members))]
pub(crate) fn put_set(line: &mut Line, label: &[u8], set: u16)
    requires { length line.old + length (set_text label.now set count_most) ≤ 192 }
    ensures { line.new ≡ line.old ++ set_text label.now set count_most }
{
    for job in 0..JobList::COUNT_MOST {
        if (set >> job) % 2 == 1 {
            put_labelled(line, label, job as u64);
        }
    }
}
