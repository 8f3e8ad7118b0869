// A stack of entries over a lent slice.
#![tactic(auto)]

mod calls;

// kept: a slice and a length beside it, since the stack works in memory of fixed size that its maker lends.
// No ghost field: other structs hold a stack by value, and every call is right for every value of the type.
/// Entries in lent memory: the newest is taken first.
#[derive(Drop)]
pub struct Stack<'a, T> {
    slots: &'a mut [T],
    len: usize,
}
