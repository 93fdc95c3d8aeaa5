//! Which connections of a worker are served next.

use std::alloc::{AllocError, Global};
use std::collections::VecDeque;

/// A connection that is to be served.
#[derive(Clone, Copy, Debug)]
pub struct Queued {
    pub key: usize,
    /// The serial of the connection. Once that has ended, its key may be another one's.
    pub serial: u64,
}

/// The connections of one listener that are to be served, in the order in which they came. Some may have ended since.
#[derive(Drop)]
struct Line {
    conns: VecDeque<Queued>,
    /// How many connections of the listener are open.
    open: usize,
}

/// Connections that are to be served, those of each listener in a line of their own. The listeners have their turns one after
/// the other, a connection at a time: however many connections of one listener are ready, one of another waits for few of
/// them.
#[derive(Drop)]
pub(crate) struct Queue {
    alloc: Global,
    /// By the number of the listener.
    lines: Vec<Line>,
    /// The listeners that have connections here, each once, first the one whose turn is next.
    turns: VecDeque<usize>,
    /// How many connections are in the lines.
    len: usize,
}

impl Queue {
    pub(crate) fn new(alloc: Global) -> Queue {
        Queue {
            alloc,
            lines: Vec::new(alloc),
            turns: VecDeque::new(alloc),
            len: 0,
        }
    }

    /// Makes room for one connection more of a listener: for each of its open connections there is room beside those in its
    /// line, of which some may have ended.
    pub(crate) fn make_room(&mut self, listener: u16) -> Result<(), AllocError> {
        let number = usize::from(listener);
        for _line in self.lines.len()..number + 1 {
            self.lines.push(Line {
                conns: VecDeque::new(self.alloc),
                open: 0,
            })?;
        }
        let idle = self.lines.len().saturating_sub(self.turns.len());
        self.turns.reserve(idle)?;
        match self.lines.get_mut(number) {
            Some(line) => line.conns.reserve(line.open.saturating_add(1)),
            None => Ok(()),
        }
    }

    /// A connection of a listener is open from now on.
    pub(crate) fn open(&mut self, listener: u16) {
        if let Some(line) = self.lines.get_mut(usize::from(listener)) {
            line.open = line.open.saturating_add(1);
        }
    }

    /// A connection of a listener is not open any more.
    pub(crate) fn close(&mut self, listener: u16) {
        if let Some(line) = self.lines.get_mut(usize::from(listener)) {
            line.open = line.open.saturating_sub(1);
        }
    }

    /// How many connections are in it.
    pub(crate) fn len(&self) -> usize {
        self.len
    }

    /// Adds a connection of a listener; whether there was room for it.
    pub(crate) fn push(&mut self, listener: u16, conn: Queued) -> bool {
        let number = usize::from(listener);
        let Some(line) = self.lines.get_mut(number) else {
            return false;
        };
        if line.conns.is_empty() && self.turns.push_back(number).is_err() {
            return false;
        }
        let is_added = line.conns.push_back(conn).is_ok();
        if is_added {
            self.len = self.len.saturating_add(1);
        }
        is_added
    }

    /// Takes the next connection out: the first one of the listener whose turn it is.
    pub(crate) fn pop(&mut self) -> Option<Queued> {
        let number = self.turns.pop_front()?;
        let line = self.lines.get_mut(number)?;
        let conn = line.conns.pop_front()?;
        self.len = self.len.saturating_sub(1);
        if !line.conns.is_empty() {
            let _ = self.turns.push_back(number);
        }
        Some(conn)
    }

    /// Takes all of them out. No connection is open any more.
    pub(crate) fn clear(&mut self) {
        self.lines.clear();
        self.turns.clear();
        self.len = 0;
    }
}
