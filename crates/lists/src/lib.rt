// What a store says of its gates: in rows of marks, in callers' lists, and held to another store.
#![tactic(auto)]

pub mod rows;
