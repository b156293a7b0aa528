// The answers about names files that code and definitions share. specs/ says what they mean; nothing here computes.
#![tactic(auto)]

use rules::Refusal;

// Which of two names files: the own one, or the shared one.
#[derive(Clone, Copy, Debug, PartialEq, Eq)]
pub enum NamesFile {
    Own,
    Shared,
}

// The refusal of one of two names files.
#[derive(Clone, Copy, Debug, PartialEq, Eq)]
pub struct FileRefusal {
    pub file: NamesFile,
    pub refusal: Refusal,
}

// Where a name is: in which file, from its first byte to before the byte behind it.
#[derive(Clone, Copy, Debug, PartialEq, Eq)]
pub struct NamePlace {
    pub file: NamesFile,
    pub from: usize,
    pub to: usize,
}
