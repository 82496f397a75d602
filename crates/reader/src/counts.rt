// The counts that a text gives.

#[derive(Clone, Copy, PartialEq, Eq)]
pub(crate) struct Counts {
    pub(crate) soft: u32,
    pub(crate) hard: u32,
    pub(crate) terminals: u32,
}
