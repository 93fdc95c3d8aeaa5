//! The lines that are written.
use refusal_text::Concern;
use std::alloc::{AllocError, Global};

/// What becomes of a line.
#[derive(Clone, Copy, Debug, PartialEq, Eq)]
pub enum Fate {
    /// It is written, in its own words or in others.
    Kept,
    /// What it says is written with other lines.
    Moved,
    /// It is a comment.
    LeftOut,
}

/// A line that is written.
#[derive(Drop)]
pub struct Item {
    /// Its number in the text of HAProxy, 0 if it is not there.
    pub number: u32,
    /// The line as it is there, or a line that is added.
    pub source: String,
    /// Its words for `l4proxy`, no text if it has none.
    pub code: String,
    /// What is said of it.
    pub notes: Vec<String>,
    pub fate: Fate,
    pub concern: Concern,
}

impl Item {
    /// A line that is kept in those words.
    pub fn new(alloc: Global, number: u32, source: &str, code: &str) -> Result<Item, AllocError> {
        Ok(Item {
            number,
            source: String::from_str(alloc, source)?,
            code: String::from_str(alloc, code.trim_ascii())?,
            notes: Vec::new(alloc),
            fate: Fate::Kept,
            concern: Concern::Process,
        })
    }

    /// Leaves the line out, and says why.
    pub fn leave_out(&mut self, said: String, concern: Concern) -> Result<(), AllocError> {
        self.fate = Fate::LeftOut;
        self.concern = concern;
        self.code.clear();
        self.notes.push(said)?;
        Ok(())
    }

    /// The first word of what is read, or no text.
    pub fn keyword(&self) -> &str {
        self.code.split_ascii_whitespace().next().unwrap_or("")
    }

    /// The second word of what is read, or no text.
    pub fn name(&self) -> &str {
        self.code.split_ascii_whitespace().nth(1).unwrap_or("")
    }
}
