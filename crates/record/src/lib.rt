// The records of the command programs: what a record says, and where it ends. For either program.
#![tactic(auto)]

pub mod numbers;

// The words with which a record begins.
#[derive(Clone, Copy, PartialEq, Eq, Debug)]
pub enum Word {
    Create,
    Insert,
    Delete,
    Contains,
    Range,
    Knn,
    Box,
    Len,
    Clear,
}
