// The runs A to G of document 01, and A with spare on of document 02, worked by the board from lists by
// value: a line a slot, and the totals.
#![tactic(auto)]

use job::{Job, JobList};
use place::Setting;
use run::State;
use std::io;

// The records behind the two jobs hold the first: they are never read.
fn two_jobs(first: Job, second: Job) -> JobList {
    let mut jobs = [first; 16];
    jobs[1] = second;
    JobList { jobs, count: 2 }
}

// One slot, printed.
fn print_step(rt: &impl Print, state: &mut State) -> io::Result<()> {
    let number = state.clock;
    let answer = run::step(state);
    rt.write_all(lines::answer_line(number, answer).as_slice())
}

fn print_run(
    rt: &impl Print,
    name: &str,
    list: JobList,
    setting: Setting,
    slots: u32,
) -> io::Result<()> {
    println!(rt; "{name}")?;
    let mut state = run::start(list, setting).state;
    for _ in 0..slots {
        print_step(rt, &mut state)?;
    }
    rt.write_all(lines::totals_line(state.totals).as_slice())
}

fn main(rt: HostRuntime) -> io::Result<()> {
    let window_order = Setting::of(Setting::W, Job::RELAXED);
    let mut with_spare = window_order;
    with_spare.spare = true;
    let a_and_b = two_jobs(Job::of(1, 2, 1, 2), Job::of(1, 3, 2, 2));
    print_run(&rt, "case A", a_and_b, window_order, 6)?;
    print_run(&rt, "case A with spare on", a_and_b, with_spare, 6)?;
    let in_v = Setting::of(Setting::V, Job::RELAXED);
    print_run(&rt, "case B", a_and_b, in_v, 6)?;
    let c_and_d = two_jobs(Job::of(2, 4, 1, 1), Job::of(1, 2, 2, 4));
    print_run(&rt, "case C", c_and_d, window_order, 8)?;
    let in_original = Setting::of(Setting::W, Job::ORIGINAL);
    print_run(&rt, "case D", c_and_d, in_original, 8)?;
    let e = two_jobs(Job::of(2, 3, 1, 2), Job::of(1, 2, 1, 1));
    print_run(&rt, "case E", e, window_order, 6)?;
    let f = two_jobs(Job::of(1, 1, 1, 1), Job::of(1, 2, 1, 1));
    print_run(&rt, "case F", f, window_order, 2)?;
    let g = two_jobs(Job::of(1, 2, 1, 1), Job::of(2, 2, 1, 1));
    print_run(&rt, "case G", g, window_order, 2)
}
