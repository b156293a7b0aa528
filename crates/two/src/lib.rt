// What two calls answer: of two traces, at two levels, or the same one twice.
#![tactic(auto)]

#[derive(Clone, Copy, Debug, PartialEq, Eq)]
pub struct Two<T> {
    pub one: T,
    pub other: T,
}
