//! The states of a parser.
use crate::block::Block;
use crate::head::HeaderStart;
use crate::line::HeaderLine;
use crate::skip::Skip;

/// How far a parser has come.
#[derive(Drop)]
pub enum State {
    /// No byte was read.
    Start,
    /// In a line of version 1.
    Line(HeaderLine),
    /// In the first 16 bytes of version 2.
    Head(HeaderStart),
    /// In a block of version 2 that begins with a pair.
    Block(Block),
    /// In a block of version 2 that is skipped.
    Skip(Skip),
}
