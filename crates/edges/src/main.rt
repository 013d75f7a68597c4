// The edges of document 01, run: each line names a list and prints what admission answers of it.
#![tactic(auto)]

use admission::{amounts, verdict};
use job::{Job, JobList, number_of};
use std::io;

// Every record holds the job, those behind the count too: they are never read.
fn same_jobs(job: Job, count: usize) -> JobList {
    JobList {
        jobs: [job; 16],
        count,
    }
}

// The jobs given; the records behind them hold the first.
fn these_jobs(jobs: &[Job]) -> JobList {
    let mut list = JobList::of(jobs);
    for at in list.count..16 {
        list.jobs[at] = list.jobs[0];
    }
    list
}

fn show(rt: &impl Print, name: &str, list: JobList, model: u32) -> io::Result<()> {
    let answer = verdict(list, model);
    let row = number_of(answer);
    let both = amounts(answer);
    println!(rt; "{name}: row {row} cycle {} load {}", both.cycle, both.load)
}

fn show_numbers(rt: &impl Print) -> io::Result<()> {
    show(rt, "T 4096", same_jobs(Job::of(1, 4096, 1, 1), 1), 0)?;
    show(rt, "T 4097", same_jobs(Job::of(1, 4097, 1, 1), 1), 0)?;
    show(rt, "T 0", same_jobs(Job::of(1, 0, 1, 1), 1), 0)?;
    show(rt, "C = T", same_jobs(Job::of(9, 9, 1, 1), 1), 0)?;
    show(rt, "C = T + 1", same_jobs(Job::of(10, 9, 1, 1), 1), 0)?;
    show(rt, "k 255", same_jobs(Job::of(1, 9, 1, 255), 1), 0)?;
    show(rt, "k 256", same_jobs(Job::of(1, 9, 1, 256), 1), 0)?;
    show(rt, "m = k", same_jobs(Job::of(1, 9, 7, 7), 1), 0)?;
    show(rt, "m = k + 1", same_jobs(Job::of(1, 9, 8, 7), 1), 0)?;
    show(
        rt,
        "every number wrong",
        same_jobs(Job::of(0, 0, 0, 0), 1),
        0,
    )?;
    show(
        rt,
        "every number largest",
        same_jobs(Job::of(4294967295, 4294967295, 4294967295, 4294967295), 1),
        0,
    )
}

fn show_counts(rt: &impl Print) -> io::Result<()> {
    show(rt, "no job", same_jobs(Job::of(1, 16, 1, 1), 0), 0)?;
    show(rt, "16 jobs", same_jobs(Job::of(1, 16, 1, 1), 16), 0)?;
    show(rt, "17 jobs", same_jobs(Job::of(1, 16, 1, 1), 17), 0)?;
    show(
        rt,
        "more jobs than memory",
        same_jobs(Job::of(1, 16, 1, 1), 18446744073709551615),
        0,
    )?;
    show(
        rt,
        "second job wrong",
        these_jobs(&[Job::of(1, 2, 1, 1), Job::of(3, 2, 1, 1)]),
        0,
    )?;
    show(rt, "original model", same_jobs(Job::of(1, 16, 1, 1), 1), 1)?;
    show(
        rt,
        "model 2 and no job",
        same_jobs(Job::of(1, 16, 1, 1), 0),
        2,
    )
}

// 16,777,216 is no least common multiple of windows: 2 to the 19th is the highest power of two in
// one. 4,095 and 4,097 come within one below it, 24,929 and 673 within one above.
fn show_cycles(rt: &impl Print) -> io::Result<()> {
    show(
        rt,
        "cycle 16777215",
        these_jobs(&[Job::of(1, 4095, 1, 1), Job::of(1, 241, 1, 17)]),
        0,
    )?;
    show(
        rt,
        "cycle 16777217",
        these_jobs(&[Job::of(1, 257, 1, 97), Job::of(1, 673, 1, 1)]),
        0,
    )?;
    show(
        rt,
        "case H",
        these_jobs(&[
            Job::of(1, 2, 1, 1),
            Job::of(1, 3, 1, 1),
            Job::of(1, 6, 1, 1),
        ]),
        0,
    )?;
    show(
        rt,
        "case I",
        these_jobs(&[
            Job::of(1, 2, 1, 1),
            Job::of(1, 2, 1, 1),
            Job::of(1, 100, 1, 255),
        ]),
        0,
    )?;
    let far = these_jobs(&[
        Job::of(1, 4093, 1, 251),
        Job::of(1, 4091, 1, 241),
        Job::of(1, 4079, 1, 239),
    ]);
    show(rt, "cycle above 64 bits", far, 0)
}

fn main(rt: HostRuntime) -> io::Result<()> {
    show_numbers(&rt)?;
    show_counts(&rt)?;
    show_cycles(&rt)
}
