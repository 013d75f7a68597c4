// The program: a sheet on standard input, its run on standard output. Every byte that it writes
// comes from a proved function; here they are only called in order.
#![tactic(auto)]

ghost use Rattle.std.specs.Prelude.{◌≡◌, ◌+◌, ◌<◌, length, OnErr};

use lines::Line;
use run::State;
use sheet::Sheet;
use std::io;

// Lines that are not written out yet.
type Waiting = text::Text<65536>;

// Puts a line behind those that wait; where there is no room, these are written out first. An error
// is that write's, and leaves them as they were.
fn put_line(rt: &impl Print, out: &mut Waiting, line: &Line) -> io::Result<()>
    ensures no_room { OnErr result (65536 < length out.old + length line.now) }
    ensures out_kept { OnErr result (out.new ≡ out.old) }
{
    let line = line.as_slice();
    if !out.has_room(line.len()) {
        rt.write_all(out.as_slice())?;
        out.clear();
    }
    out.put(line);
    Ok(())
}

// One slot: its line, and the state after it. An error is the write's.
fn put_step(rt: &impl Print, out: &mut Waiting, state: &mut State) -> io::Result<()>
    ensures { OnErr result (out.new ≡ out.old) }
{
    let number = state.clock;
    let answer = run::step(state);
    put_line(rt, out, &lines::answer_line(number, answer))
}

fn print_run(rt: &impl Print, sheet: Sheet) -> io::Result<()> {
    let mut out = Waiting::new();
    let judged = admission::verdict(sheet.list, sheet.setting.model);
    put_line(rt, &mut out, &lines::admission_line(judged))?;
    let mut state = run::start(sheet.list, sheet.setting).state;
    for _ in 0..sheet.slots {
        put_step(rt, &mut out, &mut state)?;
    }
    put_line(rt, &mut out, &lines::totals_line(state.totals))?;
    rt.write_all(out.as_slice())
}

// Reads as `below` does: each program has a `main` of its own, and the two are a few lines.
fn main(rt: HostRuntime) -> io::Result<()> {
    let mut bytes = [0u8; Sheet::BYTES_MOST + 1];
    let got = input::read_full(&mut rt.stdin(), &mut bytes)?;
    match sheet::read(&bytes[..got]) {
        Ok(sheet) => print_run(&rt, sheet),
        Err(refusal) => rt.write_all(lines::refusal_line(refusal).as_slice()),
    }
}
