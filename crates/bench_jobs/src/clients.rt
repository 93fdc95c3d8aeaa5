//! Clients that come and go.
ghost use Rattle.std.specs.Prelude.{◌<◌};

use crate::book::Keeper;
use crate::draw::{Draw, low, mixed};
use crate::job::JobFault;
use addr_core::{Addr, Endpoint, Pair};
use conn_model::event::{ConnId, Event, Why};
use conn_model::reply::Said;
use std::alloc::Global;

/// Where all clients come in.
const ADDRESS: Addr = Addr::V4(0xc000_020a);

/// How often the record is written, in turns.
const WRITTEN_EVERY: u64 = 256;

/// A header of version 1.
const HEADER: &[u8] = b"PROXY TCP4 203.0.113.77 192.0.2.10 40001 8443\r\n";

/// How many bytes of a header come first, where it comes in two pieces.
const FIRST_PIECE: usize = 20;

/// What clients do.
#[derive(Clone, Copy)]
pub struct Habits {
    /// How many listeners there are.
    pub listeners: u64,
    /// The lowest port of them.
    pub port: u64,
    /// From how many addresses they come.
    pub sources: u64,
    /// How many are open at a time.
    pub open: usize,
}

/// Clients with their open connections.
#[derive(Drop)]
pub struct Clients {
    habits: Habits,
    draw: Draw,
    open: Vec<ConnId>,
    moment: u64,
}

/// The listener of that number, and a connection from that source to it.
fn arrival(draw: &mut Draw, habits: &Habits) -> (u16, Option<Pair>) {
    let number = draw.below(habits.listeners.max(1)) & 0xfff;
    let source = Endpoint {
        addr: Addr::V4(low(mixed(draw.below(habits.sources.max(1))))),
        port: (draw.below(60_000) & 0xffff) as u16,
    };
    let destination = Endpoint {
        addr: ADDRESS,
        port: (habits.port.saturating_add(number) & 0xffff) as u16,
    };
    (number as u16, Pair::of(source, destination))
}

impl Clients {
    pub fn new(alloc: Global, habits: Habits, seed: u64) -> Clients {
        Clients {
            habits,
            draw: Draw::new(seed),
            open: Vec::new(alloc),
            moment: 0,
        }
    }

    /// Sends a header, in one piece or in two.
    fn send_header(&mut self, keeper: &mut Keeper, id: ConnId) -> Option<Said> {
        if self.draw.below(4) > 0 {
            return keeper.step(self.moment, &Event::Piece(id, HEADER));
        }
        let first = HEADER.get(..FIRST_PIECE).unwrap_or(HEADER);
        let rest = HEADER.get(FIRST_PIECE..).unwrap_or(HEADER);
        match keeper.step(self.moment, &Event::Piece(id, first)) {
            Some(Said::Wait { .. }) => keeper.step(self.moment, &Event::Piece(id, rest)),
            said => said,
        }
    }

    /// A client comes, and its server takes it.
    fn come(&mut self, keeper: &mut Keeper) -> Result<(), JobFault> {
        let (listener, Some(pair)) = arrival(&mut self.draw, &self.habits) else {
            return Ok(());
        };
        let mut said = keeper.step(self.moment, &Event::Accept(listener, pair));
        if let Some(Said::Wait { id, .. }) = said {
            said = self.send_header(keeper, id);
        }
        if let Some(Said::Offer { id, .. }) = said {
            let _said = keeper.step(self.moment, &Event::Connected(id));
            if self.open.push(id).is_err() {
                return Err(JobFault::NoMemory);
            }
        }
        Ok(())
    }

    /// One of the clients goes.
    fn go(&mut self, keeper: &mut Keeper) {
        let count = self.open.len();
        if count == 0 {
            return;
        }
        let place = (self.draw.number() % count as u64) as usize;
        let id = self.open.swap_remove(place);
        let _said = keeper.step(self.moment, &Event::Close(id, Why::Done));
    }

    /// One client comes, or another one goes.
    pub fn turn(&mut self, keeper: &mut Keeper) -> Result<(), JobFault> {
        self.moment = self.moment.saturating_add(self.draw.below(3));
        if self.open.len() < self.habits.open || self.draw.below(2) == 0 {
            return self.come(keeper);
        }
        self.go(keeper);
        Ok(())
    }

    /// So many turns, of which the record is written.
    pub fn turns(
        &mut self,
        alloc: Global,
        keeper: &mut Keeper,
        count: u64,
    ) -> Result<(), JobFault> {
        for turn in 0..count {
            self.turn(keeper)?;
            if turn % WRITTEN_EVERY == 0 {
                keeper.write(alloc)?;
            }
        }
        keeper.write(alloc)
    }

    /// The newest client stays from here on.
    pub fn leave_newest(&mut self) {
        let _kept = self.open.pop();
    }
}
