#![tactic(auto)]
// Reads a script from standard input, and prints what each call answered.
ghost use Rattle.std.specs.Prelude.{◌≡◌, ◌<◌, true, length, is_some, IfOk};

mod answers;
mod lists;
mod packs;
mod pending;
mod plans;
mod skies;
mod texts;

use answers::Outcome;
use calls::desk::Desk;
use columns::Columns;
use lists::Gathered;
use packs::pack_lines;
use pending::Pending;
use placed::Placed;
use plan::Settled;
use script::line::{Kind, Line, NotUnderstood};
use script::read_line;
use skyline::skylines::Skyline;
use skyline::spans::Run;
use std::io;
use std::io::Read;
use steps::steps::Steps;

// The plan in hand, the lists gathered, and the lines to come.
#[derive(Drop)]
struct Work<'a> {
    desk: Desk,
    lists: Gathered,
    pending: Pending<'a>,
}

fn print(rt: &HostRuntime, outcome: Outcome) -> io::Result<()> {
    match outcome {
        Ok(answer) => rt.println(answer),
        Err(denial) => rt.println(denial),
    }
}

// A call on the skyline in hand, or else on the plan: the desk after it.
fn call<S: Skyline>(
    rt: &HostRuntime,
    skyline: &mut S,
    desk: Desk,
    lists: &mut Gathered,
    line: Line,
) -> io::Result<Desk> {
    if let Some(outcome) = skies::call(skyline, line) {
        print(rt, outcome)?;
        return Ok(desk);
    }
    let (desk, outcome) = plans::call(rt.alloc(), desk, line, lists)?;
    if let Line::Load { .. } = line {
        lists.clear();
    }
    print(rt, outcome)?;
    Ok(desk)
}

// Performs one line on the plan and the skyline in hand: the desk after it.
fn step<S: Skyline>(
    rt: &HostRuntime,
    skyline: &mut S,
    desk: Desk,
    lists: &mut Gathered,
    line: Line,
) -> io::Result<Desk> {
    match line {
        Line::Block {
            size,
            letter,
            children,
        } => lists.push(size, letter, children)?,
        Line::Size(size) => lists.sizes.push(size)?,
        Line::Letter(letter) => lists.letters.push(letter)?,
        Line::Pair(children) => lists.children.push(children)?,
        Line::Pack { walk, places } => pack_lines(rt, skyline, desk.plan(), walk, places)?,
        line => return call(rt, skyline, desk, lists, line),
    }
    Ok(desk)
}

// Goes through the lines up to the one that makes another skyline, or to the end.
fn lines<'a, S: Skyline>(
    rt: &HostRuntime,
    skyline: &mut S,
    work: Work<'a>,
) -> io::Result<(Work<'a>, Option<Kind>)>
    ensures { IfOk result (λ p. is_some p.1 ≡ true → length p.0.pending.rest.now < length work.entry.pending.rest.now) }
{
    let Work {
        mut desk,
        mut lists,
        mut pending,
    } = work;
    if pending.number > 0 {
        rt.println(skies::told(skyline))?;
    }
    while let Some(text) = pending.next() {
        match read_line(text) {
            Ok(None) => {}
            Ok(Some(Line::Make(kind))) => {
                let work = Work {
                    desk,
                    lists,
                    pending,
                };
                return Ok((work, Some(kind)));
            }
            Ok(Some(line)) => desk = step(rt, skyline, desk, &mut lists, line)?,
            Err(NotUnderstood) => println!(rt; "line {}: not understood", pending.number)?,
        }
    }
    let work = Work {
        desk,
        lists,
        pending,
    };
    Ok((work, None))
}

// Makes a skyline of that kind, tells it if the script asked for it, and goes through the lines with it.
fn over<'a>(rt: &HostRuntime, kind: Kind, work: Work<'a>) -> io::Result<(Work<'a>, Option<Kind>)>
    ensures { IfOk result (λ p. is_some p.1 ≡ true → length p.0.pending.rest.now < length work.entry.pending.rest.now) }
{
    match kind {
        Kind::Columns(columns) => {
            let mut memory = vec![in rt.alloc(); 0u32; columns as usize]?;
            lines(rt, &mut Columns::new(&mut memory), work)
        }
        Kind::Steps { columns, records } => {
            let mut memory = vec![in rt.alloc(); Run::default(); records as usize]?;
            lines(rt, &mut Steps::new(&mut memory, columns), work)
        }
        Kind::Placed { columns, records } => {
            let mut memory = vec![in rt.alloc(); Run::default(); records as usize]?;
            lines(rt, &mut Placed::new(&mut memory, columns), work)
        }
    }
}

// Goes through all lines. At first the skyline has no memory; at the end the desk is let go, which undoes an open trial.
fn run(rt: &HostRuntime, text: &[u8]) -> io::Result<()> {
    let mut work = Work {
        desk: Desk::Settled(Settled::new(rt.alloc())?),
        lists: Gathered::new(rt.alloc()),
        pending: Pending {
            rest: text,
            number: 0,
        },
    };
    let mut kind = Kind::Columns(0);
    loop {
        let (after, next) = over(rt, kind, work)?;
        work = after;
        let Some(asked) = next else {
            return Ok(());
        };
        kind = asked;
    }
}

fn main(rt: HostRuntime) -> io::Result<()> {
    let mut text = Vec::new(rt.alloc());
    rt.stdin().read_to_end(&mut text)?;
    run(&rt, &text)
}
