//! What the words of the command line say.
use crate::expected::Expected;
use device_ids::{Text, TextList};

/// One of so many parts of the scripts: those of the numbers that leave its own when they are divided by how many parts there are. This project's own.
#[derive(Clone, Copy, Debug, PartialEq, Eq)]
pub struct Part {
    /// Which part, from 1.
    pub number: u64,
    /// How many there are.
    pub of: u64,
}

/// Which of the scripts are run. This project's own.
#[derive(Drop)]
pub enum Share {
    /// All of them.
    Whole,
    /// Those of a part.
    Part(Part),
    /// None: what the parts in these files came to is put together.
    Merged(TextList),
}

/// What is to be found out about the scripts of a family.
#[derive(Drop)]
pub struct Exploration {
    /// The names of the INFs, in order; at most 64.
    pub infs: TextList,
    /// How many places a search for resources may try, from 1 to 1,000,000.
    pub budget: u64,
    /// What no trace is to have; at most 16.
    pub never: TextList,
    /// What each trace is to have; at most 16.
    pub always: TextList,
    /// Both, read.
    pub expected: Expected,
    /// How many endings there may be.
    pub endings: Option<u64>,
    /// Whether endings are told apart by their exact text.
    pub exact: bool,
    /// How many scripts are run at most, the first ones.
    pub first: u64,
    pub share: Share,
}

/// What is asked of a family. This project's own.
#[derive(Drop)]
pub enum Task {
    /// How many scripts it has.
    Count,
    /// The script of this number, counted from 1.
    Script(u64),
    /// What its scripts come to.
    Explore(Exploration),
}

/// What the words of a command line say. This project's own.
#[derive(Drop)]
pub struct Words {
    /// The name of the family.
    pub family: Text,
    pub task: Task,
}
