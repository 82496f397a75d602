// Trials held to what is expected of them.
use crate::places::Place;
use crate::telling::{check_refused, check_tree};
use plan::{Settled, Tried};
use rules::edits::Edit;
use std::process::Abort;
use std::test::Fail;

// The trial, unless a check of it failed: then it is undone.
pub fn passed(trial: Tried, res: Result<(), Fail>) -> Result<Tried, Fail> {
    match res {
        Ok(()) => Ok(trial),
        Err(fail) => {
            let _ = trial.undo();
            Err(fail)
        }
    }
}

fn check_trial(rt: &impl Abort, trial: &Tried, is_empty: bool, tree: &[Place]) -> Result<(), Fail> {
    assert_eq!(rt; trial.is_empty(), is_empty);
    check_tree(rt, trial, tree)
}

// Opens a trial of an edit that is allowed and gives this tree.
pub fn begun(rt: &impl Abort, plan: Settled, edit: Edit, tree: &[Place]) -> Result<Tried, Fail> {
    plan.test(edit)?;
    let trial = plan.begin(edit);
    let result = check_trial(rt, &trial, false, tree);
    passed(trial, result)
}

// Opens an empty trial, of an edit that is refused, in a plan of this tree.
pub fn begun_empty(
    rt: &impl Abort,
    plan: Settled,
    edit: Edit,
    number: u8,
    place: u32,
    tree: &[Place],
) -> Result<Tried, Fail> {
    check_refused(rt, plan.test(edit), number, place)?;
    check_tree(rt, &plan, tree)?;
    let trial = plan.begin(edit);
    let result = check_trial(rt, &trial, true, tree);
    passed(trial, result)
}
