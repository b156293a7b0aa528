// How an event is put. specs/ says what that means, and what the calls answer that fill a lent buffer; nothing here computes.
#![tactic(auto)]

// An event is put as a step of sixteen bytes, or as a record of edition 1 or 2.
#[derive(Clone, Copy, Debug, PartialEq, Eq)]
pub enum Form {
    Step,
    First,
    Second,
}
