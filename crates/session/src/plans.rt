// Calls on the plan in hand.
use crate::answers::{Answer, Denial, Outcome};
use crate::lists::Gathered;
use calls::desk::Desk;
use plan::{Settled, Tried};
use script::line::Line;
use std::alloc::{AllocError, Global};

// A load of the lists gathered, with so many walk records.
fn loaded(
    heap: Global,
    plan: &mut Settled,
    lists: &Gathered,
    root: u16,
    walk: u32,
) -> Result<Outcome, AllocError> {
    let mut records = vec![in heap; 0u16; walk as usize]?;
    let answer = plan.load(lists.under(root), &mut records);
    Ok(answer.map(Answer::Loaded).map_err(Denial::from))
}

// A call on a settled plan: the desk after it, and what it answered.
fn settled_call(
    heap: Global,
    mut plan: Settled,
    line: Line,
    lists: &Gathered,
) -> Result<(Desk, Outcome), AllocError> {
    let outcome = match line {
        Line::Load { root, walk } => loaded(heap, &mut plan, lists, root, walk)?,
        Line::Test(edit) => plan
            .test(edit)
            .map(|()| Answer::Allowed)
            .map_err(Denial::from),
        Line::Report(block) => plan
            .report(block)
            .map(Answer::Reported)
            .map_err(Denial::from),
        Line::Begin(edit) => {
            let trial = plan.begin(edit);
            let answer = if trial.is_empty() {
                Answer::BegunEmpty
            } else {
                Answer::Begun
            };
            return Ok((Desk::Tried(trial), Ok(answer)));
        }
        _ => Err(Denial::NotAllowed),
    };
    Ok((Desk::Settled(plan), outcome))
}

// A call on an open trial.
fn tried_call(trial: Tried, line: Line) -> (Desk, Outcome) {
    match line {
        Line::Keep => {
            let plan = trial.keep();
            let count = plan.kept();
            (Desk::Settled(plan), Ok(Answer::Kept(count)))
        }
        Line::Undo => {
            let plan = trial.undo();
            let count = plan.kept();
            (Desk::Settled(plan), Ok(Answer::Undone(count)))
        }
        Line::Report(block) => {
            let report = trial.report(block);
            (
                Desk::Tried(trial),
                report.map(Answer::Reported).map_err(Denial::from),
            )
        }
        _ => (Desk::Tried(trial), Err(Denial::NotAllowed)),
    }
}

// A call on the plan in hand: the desk after it, and what it answered.
pub fn call(
    heap: Global,
    desk: Desk,
    line: Line,
    lists: &Gathered,
) -> Result<(Desk, Outcome), AllocError> {
    match desk.into_settled() {
        Ok(plan) => settled_call(heap, plan, line, lists),
        Err(trial) => Ok(tried_call(trial, line)),
    }
}
