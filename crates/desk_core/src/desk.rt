//! The desk.
ghost use Rattle.std.specs.Prelude.{◌≡◌, ◌↔◌, ◌<◌, ◌-◌, ◌+◌, ◌^◌, [], ◌∷◌, ◌++◌, length, Err, IfOk, IfErr, OnErr, OnOk};
ghost use Rattle.std.specs.Option.{option_map};
ghost use Rattle.conn_model.specs.declared.event.OwnedEvent.TheVariants as owned;
ghost use Rattle.conn_model.specs.declared.reply.Said.TheVariants.{Closed};
ghost use Rattle.book_core.specs.Book.{after_cut, segment_of, with_ring};
ghost use Rattle.conn_model.specs.HandedIn.{HasPieceInLimit};
ghost use Rattle.conn_model.specs.Counts.{open_connections};
ghost use Rattle.rtrb.specs.Ring.{known_free, known_items, received, sent, ConsumerLooked, IsPair, ProducerLooked, SameProducer};
ghost use Rattle.desk_core.specs.declared.desk.TheConstants.{CALL_PARTS};
ghost use Rattle.desk_core.specs.Books.{IsOf, MomentsRise};
ghost use Rattle.desk_core.specs.Calls.{open_id, HasEntries, HasVersions, IsAnswered, IsCounted, IsCut, IsMarked, IsNotCut, IsRefused, IsReloaded};

use crate::counted::CountedBook;
use crate::desk_state::DeskState;
use crate::lease::{Drive, DriveResult, Lease};
use crate::naming::{AnyOpening, Opening};
use crate::pass::Pass;
use addr_core::Pair;
use book_core::{Book, CutFault, Receipt};
use conn_model::ask::{Ask, Counts};
use conn_model::event::{Health, Why};
use conn_model::reply::StepFault;
use record_core::Segment;
use rtrb::Consumer;
use std::alloc::Global;
use std::hint::spin_loop;
use std::marker::PhantomData;
use std::sync::ledger::{Blank, Ledger, Share};
use std::sync::{Mutex, MutexGuard, Wait, ledger};

/// How often a thread asks for the lock before it sleeps until it is free, and how long it waits in between, in hints to the
/// processor: for some tens of microseconds in all. What is done under the lock takes one or two, and to sleep and to be
/// woken takes longer.
const TRIES: u32 = 100;

const HINTS: u32 = 10;

/// The part of a desk that threads share: a book in a lock. Each call is one entry of the history of that book, or
/// none.
pub struct SharedDesk<M: Ledger, O: Ledger, B: Opening = AnyOpening> {
    desk_state: Mutex<DeskState<M, O, B>>,
}

impl<M: Ledger, O: Ledger, B: Opening> SharedDesk<M, O, B> {
    ghost use Rattle.desk_core.specs.Driving.{driven_event, IsDriven};

    fn into_state(self) -> DeskState<M, O, B> {
        let SharedDesk { desk_state } = self;
        desk_state.into_inner()
    }

    /// What the lock guards, once it is free.
    fn lock<R: Wait>(&self, rt: &R) -> MutexGuard<'_, DeskState<M, O, B>> {
        for _try in 0..TRIES {
            if let Some(guard) = self.desk_state.try_lock() {
                return guard;
            }
            for _hint in 0..HINTS {
                spin_loop();
            }
        }
        self.desk_state.lock(rt)
    }

    /// A connection came to a listener, by its number; the pair is its peer and its local end. There is a lease where
    /// the connection has to wait or is offered a server.
    pub fn accept<R: Wait>(
        &self,
        rt: &R,
        pass: &mut Pass<M>,
        moment: u64,
        listener: u16,
        real: &Pair,
    ) -> Result<(Receipt, Option<Lease<O>>), StepFault>
        ensures pass { IfOk result (λ r. IsAnswered B.opening pass.old pass.new moment (owned.Accept listener real.now) r.0) }
        ensures lease { IfOk result (λ r. option_map (λ lease. lease.id) r.1 ≡ open_id r.0.reply.said) }
        ensures fault { IfErr result (IsRefused B.opening moment (owned.Accept listener real.now)) }
        ensures err { OnErr result (pass.new ≡ pass.old) }
    {
        self.lock(rt).accept(pass, moment, listener, real)
    }

    /// Something is driven on the connection of the lease.
    pub fn drive<R: Wait>(
        &self,
        rt: &R,
        pass: &mut Pass<M>,
        moment: u64,
        lease: Lease<O>,
        drive: &Drive<'_>,
    ) -> DriveResult<O>
        requires piece { HasPieceInLimit (driven_event lease.id drive.now) }
        ensures { IsDriven B.opening pass.old pass.new moment (driven_event lease.id drive.now) lease.id result }
    {
        self.lock(rt).drive(pass, moment, lease, drive)
    }

    /// The connection of the lease ended. Without memory for the record the lease comes back.
    pub fn close<R: Wait>(
        &self,
        rt: &R,
        pass: &mut Pass<M>,
        moment: u64,
        lease: Lease<O>,
        why: Why,
    ) -> Result<Receipt, (StepFault, Lease<O>)>
        ensures pass { IfOk result (λ r. IsAnswered B.opening pass.old pass.new moment (owned.Close lease.id why) r) }
        ensures said { IfOk result (λ r. r.reply.said ≡ Closed lease.id why) }
        ensures fault { IfErr result (λ failed. IsRefused B.opening moment (owned.Close lease.id why) failed.0) }
        ensures err { IfErr result (λ failed. (pass.new ≡ pass.old) × (failed.1.id ≡ lease.id)) }
    {
        self.lock(rt).close(pass, moment, lease, why)
    }

    /// A new configuration is to come into force: its text. Connections that are open keep theirs.
    pub fn reload<R: Wait>(
        &self,
        rt: &R,
        pass: &mut Pass<M>,
        moment: u64,
        text: &str,
    ) -> Result<Receipt, StepFault>
        ensures pass { IfOk result (λ r. IsAnswered B.opening pass.old pass.new moment (owned.Reload text.now) r) }
        ensures said { IfOk result (λ r. IsReloaded r.reply.said) }
        ensures fault { IfErr result (IsRefused B.opening moment (owned.Reload text.now)) }
        ensures err { OnErr result (pass.new ≡ pass.old) }
    {
        self.lock(rt).reload(pass, moment, text)
    }

    /// A server is reported down or up: the numbers of its backend in the newest configuration and of it in its backend.
    /// Connections that are open to it go on.
    pub fn mark<R: Wait>(
        &self,
        rt: &R,
        pass: &mut Pass<M>,
        moment: u64,
        backend: u16,
        server: u16,
        health: Health,
    ) -> Result<Receipt, StepFault>
        ensures pass { IfOk result (λ r. IsAnswered B.opening pass.old pass.new moment (owned.Mark backend server health) r) }
        ensures said { IfOk result (λ r. IsMarked health r.reply.said) }
        ensures fault { IfErr result (IsRefused B.opening moment (owned.Mark backend server health)) }
        ensures err { OnErr result (pass.new ≡ pass.old) }
    {
        self.lock(rt).mark(pass, moment, backend, server, health)
    }

    /// Hands the records that are in memory over as one segment. It takes no memory.
    pub fn cut<R: Wait>(&self, rt: &R) -> Result<(), CutFault>
        ensures cut { OnOk result (IsCut B.opening) }
        ensures fault { IfErr result (IsNotCut B.opening) }
    {
        self.lock(rt).cut()
    }

    /// What is open of that which is asked for, if there is such a thing.
    pub fn ask<R: Wait>(&self, rt: &R, ask: &Ask) -> Option<Counts>
        ensures { IsCounted B.opening ask.now result }
    {
        self.lock(rt).counts(ask)
    }

    /// How many entries of the stick table of that number in the newest version are in memory, if there is such a table.
    pub fn entries<R: Wait>(&self, rt: &R, number: u16) -> Option<u64>
        ensures { HasEntries B.opening number result }
    {
        self.lock(rt).entries(number)
    }

    /// How many versions are kept: the newest, and each that judges an open connection.
    pub fn versions<R: Wait>(&self, rt: &R) -> u64
        ensures { HasVersions B.opening result }
    {
        self.lock(rt).versions()
    }
}

/// Into how many parts the ledger of calls is cut: one for each pass, of which there are at most 65,536, and one that the
/// desk keeps.
pub const CALL_PARTS: u64 = 65_537;

/// A book that threads share, and its owner's means to give out passes.
pub struct Desk<M: Ledger, O: Ledger, B: Opening = AnyOpening> {
    alloc: Global,
    shared: SharedDesk<M, O, B>,
    given: u64,
    pool: Share<M>,
    pub ghost parts: { pool.parts + given ≡ CALL_PARTS },
    pub ghost no_calls: { pool.amount ≡ 0 },
}

/// What is left of a desk: its book, and the tokens by which the passes' calls are its records, and the leases its open
/// connections.
pub struct ClosedDesk<M: Ledger, O: Ledger, B: Opening = AnyOpening> {
    pub(crate) book: Book,
    pub(crate) made: ledger::Book<M>,
    pub(crate) leases: ledger::Book<O>,
    pub(crate) idle: Share<O>,
    pub(crate) live: u64,
    pub(crate) given: u64,
    pub(crate) pool: Share<M>,
    pub(crate) of: PhantomData<B>,
    pub ghost opened: { IsOf B.opening book },
    pub ghost rise: { MomentsRise book.records },
    pub ghost counted: { book.made ≡ made.total },
    pub ghost leased: { open_connections book.state ≡ leases.total },
    pub ghost lives: { live ≡ leases.total },
    pub ghost parts: { pool.parts + given ≡ CALL_PARTS },
    pub ghost no_calls: { pool.amount ≡ 0 },
    pub ghost no_leases: { idle.amount ≡ 0 },
}

impl<M: Ledger, O: Ledger, B: Opening> ClosedDesk<M, O, B> {
    /// The book.
    pub fn book(&self) -> &Book
        ensures book { result.now ≡ self.now.book }
        ensures opened { IsOf B.opening result.now }
        ensures rise { MomentsRise result.now.records }
    {
        &self.book
    }

    /// Hands the records in memory over as one segment, as the book does it.
    pub fn cut(&mut self) -> Result<(), CutFault>
        ensures sent { OnOk result (sent self.new.book.segments ≡ sent self.old.book.segments ++ segment_of self.old.book ∷ []) }
        ensures new { OnOk result (self.new.book ≡ after_cut self.old.book self.new.book.segments) }
        ensures ring { SameProducer self.old.book.segments self.new.book.segments }
        ensures nothing { (result ≡ Err CutFault.Nothing) ↔ (self.old.book.journal ≡ []) }
        ensures full { result ≡ Err CutFault.Full → known_free self.new.book.segments ≡ 0 }
        ensures err { OnErr result ((self.new.book ≡ with_ring self.old.book self.new.book.segments) × ProducerLooked self.old.book.segments self.new.book.segments) }
        ensures given { self.new.given ≡ self.old.given }
    {
        self.book.cut()
    }

    /// How many segments are still in the ring. The caller has the other end of it. Then it is known which they are.
    pub fn left(&mut self, segments: &mut Consumer<Segment>) -> usize
        requires { IsPair self.old.book.segments segments.old }
        ensures value { result ≡ length (known_items segments.new) }
        ensures fifo { received segments.new ++ known_items segments.new ≡ sent self.new.book.segments }
        ensures consumer { ConsumerLooked segments.old segments.new }
        ensures producer { ProducerLooked self.old.book.segments self.new.book.segments }
        ensures new { self.new.book ≡ with_ring self.old.book self.new.book.segments }
        ensures given { self.new.given ≡ self.old.given }
    {
        self.book.left(segments)
    }
}

impl<M: Ledger, O: Ledger, B: Opening> Desk<M, O, B> {
    /// A desk over a book with no record and no open connection. Of the blanks one becomes the ledger of calls, the
    /// other that of leases.
    pub fn new(alloc: Global, book: Book, made: Blank, leases: Blank) -> Desk<M, O, B>
        requires opened { IsOf B.opening book }
        requires fresh { (book.made ≡ 0) × (open_connections book.state ≡ 0) × (open_connections book.base ≡ 0) }
        requires made_name { made.name ≡ M.name }
        requires made_parts { (made.parts ≡ M.parts) × (made.parts ≡ CALL_PARTS) }
        requires leases_name { leases.name ≡ O.name }
        requires leases_parts { (leases.parts ≡ O.parts) × (leases.parts ≡ 2 ^ 64 - 1) }
        ensures { result.given ≡ 0 }
    {
        let (made, pool) = made.open::<M>();
        let (leases, idle) = leases.open::<O>();
        Desk {
            alloc,
            shared: SharedDesk {
                desk_state: Mutex::new(DeskState {
                    counted: CountedBook::new(book, made),
                    leases,
                    idle,
                    live: 0,
                }),
            },
            given: 0,
            pool,
        }
    }

    /// How many passes were given out.
    pub fn given(&self) -> u64
        ensures { result ≡ self.now.given }
    {
        self.given
    }

    /// A pass with no call, which keeps the records of its calls if that is wanted.
    pub fn pass(&mut self, keeps: bool) -> Pass<M>
        requires { self.old.given + 1 < CALL_PARTS }
        ensures given { self.new.given ≡ self.old.given + 1 }
        ensures pass { (result.calls ≡ 0) × (result.kept ≡ []) × (result.keeps ≡ keeps) }
    {
        let Desk {
            alloc,
            shared: _,
            given,
            pool,
        } = self;
        let share = pool.split_off(1, 0);
        *given += 1;
        Pass::new(*alloc, keeps, share)
    }

    /// What threads share.
    pub fn shared(&self) -> &SharedDesk<M, O, B> {
        &self.shared
    }

    /// Ends the calls.
    pub fn into_book(self) -> ClosedDesk<M, O, B>
        ensures given { result.given ≡ self.given }
        ensures opened { IsOf B.opening result.book }
        ensures rise { MomentsRise result.book.records }
    {
        let Desk {
            alloc: _,
            shared,
            given,
            pool,
        } = self;
        let DeskState {
            counted,
            leases,
            idle,
            live,
        } = shared.into_state();
        let CountedBook {
            book,
            made,
            latest: _,
            of,
        } = counted;
        ClosedDesk {
            book,
            made,
            leases,
            idle,
            live,
            given,
            pool,
            of,
        }
    }
}
