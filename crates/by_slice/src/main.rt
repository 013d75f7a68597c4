// The same lists by slice and by value: each line prints what admission answers of both.
#![tactic(auto)]

use admission::{Admission, admit_first, amounts, verdict};
use job::{Job, JobList, number_of};
use std::io;

// The first and the sixteenth job of a list, whose other jobs are alike.
#[derive(Clone, Copy)]
struct Ends {
    first: Job,
    last: Job,
}

impl Ends {
    // 40 records, of which the seventeenth is not allowed.
    fn records(self) -> [Job; 40] {
        let mut jobs = [Job::of(2, 60, 1, 2); 40];
        jobs[0] = self.first;
        jobs[15] = self.last;
        jobs[16] = Job::none();
        jobs
    }

    // A list by value that has the first 16 of them, and any count: those behind it are never read.
    fn list(self, count: usize) -> JobList {
        let mut jobs = [Job::none(); 16];
        jobs.copy_from_slice(&self.records()[..16]);
        JobList { jobs, count }
    }
}

fn print_answer(rt: &impl Print, answer: Admission) -> io::Result<()> {
    let row = number_of(answer);
    let both = amounts(answer);
    print!(rt; " row {row} cycle {} load {}", both.cycle, both.load)
}

fn show(rt: &impl Print, name: &str, ends: Ends, count: usize, model: u32) -> io::Result<()> {
    print!(rt; "{name}: by slice")?;
    print_answer(rt, admit_first(ends.records(), count, model))?;
    print!(rt; "; by value")?;
    print_answer(rt, verdict(ends.list(count), model))?;
    println!(rt; "")
}

fn show_counts(rt: &impl Print, ends: Ends) -> io::Result<()> {
    show(rt, "0 records", ends, 0, Job::RELAXED)?;
    show(rt, "1 record", ends, 1, Job::RELAXED)?;
    show(rt, "16 records", ends, 16, Job::RELAXED)?;
    show(rt, "17 records", ends, 17, Job::RELAXED)?;
    show(rt, "40 records", ends, 40, Job::RELAXED)
}

fn show_refusals(rt: &impl Print, ends: Ends, wrong: Job) -> io::Result<()> {
    let first_wrong = Ends {
        first: wrong,
        ..ends
    };
    let last_wrong = Ends {
        last: wrong,
        ..ends
    };
    show(
        rt,
        "16 records, the first not allowed",
        first_wrong,
        16,
        Job::RELAXED,
    )?;
    show(
        rt,
        "16 records, the last not allowed",
        last_wrong,
        16,
        Job::RELAXED,
    )?;
    show(rt, "16 records, original model", ends, 16, Job::ORIGINAL)?;
    show(rt, "40 records, model 2", ends, 40, 2)
}

fn main(rt: HostRuntime) -> io::Result<()> {
    let last = Job::of(5, 90, 2, 3);
    let ends = Ends {
        first: Job::of(1, 40, 1, 1),
        last,
    };
    let over = Ends {
        first: Job::of(40, 40, 1, 1),
        last,
    };
    show_counts(&rt, ends)?;
    show_refusals(&rt, ends, Job::of(5, 90, 4, 3))?;
    show(&rt, "16 records, overload", over, 16, Job::RELAXED)
}
