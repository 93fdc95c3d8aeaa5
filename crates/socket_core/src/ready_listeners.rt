//! The listeners at which a client may wait, as one worker knows.
use std::alloc::{AllocError, Global};
use std::collections::VecDeque;

/// Listeners by their numbers, in the order of their turns. Each is there once.
#[derive(Drop)]
pub struct ReadyListeners {
    turns: VecDeque<u16>,
    /// Which are there, by their numbers.
    are_there: Vec<bool>,
}

impl ReadyListeners {
    /// Room for so many listeners, of which none is there.
    pub fn new(alloc: Global, count: usize) -> Result<ReadyListeners, AllocError> {
        let mut turns = VecDeque::new(alloc);
        turns.reserve(count)?;
        Ok(ReadyListeners {
            turns,
            are_there: Vec::from_elem(alloc, false, count)?,
        })
    }

    pub fn len(&self) -> usize {
        self.turns.len()
    }

    pub fn is_empty(&self) -> bool {
        self.turns.is_empty()
    }

    /// A client may wait at that listener, which has its turn after those that are there.
    pub fn add(&mut self, number: u16) {
        let Some(is_there) = self.are_there.get_mut(usize::from(number)) else {
            return;
        };
        if !*is_there && self.turns.push_back(number).is_ok() {
            *is_there = true;
        }
    }

    /// Takes out the listener whose turn it is.
    pub fn next(&mut self) -> Option<u16> {
        let number = self.turns.pop_front()?;
        if let Some(is_there) = self.are_there.get_mut(usize::from(number)) {
            *is_there = false;
        }
        Some(number)
    }
}
