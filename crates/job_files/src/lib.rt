// A job resumed: everything is looked at by name or opened for reading first, in the order of the refusals, and only then something is written, by crate job_disk. Each
// refusal is a form on standard output with line 0 and a line on standard error that says what to do, and leaves every file as it was.
#![tactic(auto)]

ghost use Rattle.std.specs.Prelude.{◌≡◌};
ghost use Rattle.job.specs.Part.{call_check};
ghost use Rattle.job_files.specs.Reads.{Reads};

mod again;
mod begin;
mod first;
mod names;
mod output;

use files::Told;
use job::Saved;
use job::parts::Again;
use job_disk::Files;
use names::Names;
use output::Job;
use std::fs::File;

// The job run, whose call was read again.
fn run(
    rt: &HostRuntime,
    t: &[i16; 1880],
    b: &mut [i16; 234],
    p: Saved,
    a: Again,
    most: u32,
    f: Files<'_>,
)
    requires { Reads p.at a × (call_check p a ≡ 0) }
{
    job_disk::run(rt, t, b, p, most, f);
}

// The job whose call is open. A new job's state is written before OUT is made.
fn go_on(
    rt: &HostRuntime,
    t: &[i16; 1880],
    b: &mut [i16; 234],
    tables: u32,
    most: u32,
    n: Names<'_>,
    call: &File,
) -> Result<(), Told> {
    let state = n.state.name;
    let out_name = n.out.name;
    let s = begin::begin(rt, state, tables, b)?;
    let place = s.place;
    begin::left(rt, n.aside)?;
    let a = again::taken(call, place.at);
    again::readable(rt, call, place.at, a, n.call.name)?;
    if let Err(r) = job::parts::call_check(place, a) {
        return Err(again::refuse(rt, r, n.call.name));
    }
    let j = Job {
        t,
        b: &*b,
        place,
        call,
        call_name: n.call.name,
        name: out_name,
    };
    j.owns(rt, n.out.seen)?;
    if s.fresh {
        job_disk::begin(rt, state, b, tables)?;
    }
    let out = output::open(rt, out_name, n.out.seen.is_ok())?;
    let f = Files {
        call,
        out: &out,
        state,
        out_name,
    };
    run(rt, t, b, place, a, most, f);
    Ok(())
}

// The job whose tables are read: the names are looked at, all of them before one is refused, and the call opened.
fn open(
    rt: &HostRuntime,
    t: &[i16; 1880],
    b: &mut [i16; 234],
    sum: u32,
    most: u32,
    tables: &[u8],
    call: &[u8],
    state: &[u8],
    aside: &[u8],
    out: &[u8],
) -> Result<(), Told> {
    let tables = names::look(rt, tables);
    let call = names::look(rt, call);
    let state = names::look(rt, state);
    let out = names::look(rt, out);
    let aside = names::look(rt, aside);
    let n = Names {
        tables: tables?,
        call: call?,
        state: state?,
        out: out?,
        aside: aside?,
    };
    n.usable(rt)?;
    let from = files::or_tell(rt, n.call.name, files::open(rt, n.call.name))?;
    go_on(rt, t, b, sum, most, n, &from)
}

// Goes on with the job of the file `state`, or begins one where there is none: at most `most` frames of `call`, to `out`.
pub fn resume(rt: &HostRuntime, tables: &[u8], call: &[u8], state: &[u8], out: &[u8], most: u32) {
    let _ = resumed(rt, tables, call, state, out, most);
}

// The same; where it ends early the reason was told.
fn resumed(
    rt: &HostRuntime,
    tables: &[u8],
    call: &[u8],
    state: &[u8],
    out: &[u8],
    most: u32,
) -> Result<(), Told> {
    let mut t = [0i16; 1880];
    let mut b = [0i16; 234];
    let checked = files::tables(rt, tables, &mut t, &mut b);
    let sum = checked.sum;
    if checked.code != 0 {
        files::print_refused(rt, checked.code, 0);
        return Err(Told);
    }
    let mut aside = [0u8; 4096];
    let Some(n) = job::names::aside(state, &mut aside) else {
        files::say(rt, state, b"the name is too long for a file beside it");
        return Err(Told);
    };
    open(
        rt,
        &t,
        &mut b,
        sum,
        most,
        tables,
        call,
        state,
        &aside[..n],
        out,
    )
}
