// A stack over memory that the caller lends: its items stand at the front, the newest last.
ghost use Rattle.std.specs.Prelude.{◌≤◌, length};

mod ops;

#[derive(Drop)]
pub struct Stack<'a, T> {
    items: &'a mut [T],
    len: usize,
    ghost fits: { len ≤ length items.now },
}
