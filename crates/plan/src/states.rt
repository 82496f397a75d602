// The two states of a plan.
use crate::plans::Plan;
use table::Table;

// A plan with no open trial. The spare table is memory for the next trial.
#[derive(Drop)]
pub struct Settled {
    pub(crate) plan: Plan,
    pub(crate) spare: Table,
    pub(crate) kept: u32,
}

// What an open trial goes back to.
#[derive(Drop)]
pub(crate) enum Before {
    // of an empty trial the plan as it is; the table is memory for the next trial
    Unaltered(Table),
    // the plan from before the edit
    Plan(Plan),
}

// A plan with an open trial: it is not Drop, so it is kept or undone.
pub struct Tried {
    pub(crate) plan: Plan,
    pub(crate) before: Before,
    pub(crate) kept: u32,
}
