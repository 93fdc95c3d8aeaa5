//! A book whose records are the calls of passes.
ghost use Rattle.std.specs.Prelude.{◌≡◌, ◌<◌, ◌≤◌, ◌+◌, ◌^◌, IfErr, IfOk, MatchOption, Ok, OnErr, OnOk, false, true, vec_capacity, vec_len};
ghost use Rattle.conn_model.specs.HandedIn.{HasPieceInLimit};
ghost use Rattle.conn_model.specs.History.{owned_event};
ghost use Rattle.conn_model.specs.declared.event.OwnedEvent.TheVariants as owned;
ghost use Rattle.conn_model.specs.declared.reply.Said.TheVariants.{Closed};
ghost use Rattle.book_core.specs.Book.{book_answer};
ghost use Rattle.conn_model.specs.Counts.{open_connections};
ghost use Rattle.book_core.specs.Open.{connections_ended, connections_opened};
ghost use Rattle.desk_core.specs.Books.{moment_in, IsDeskBook, IsOf, MomentsRise};
ghost use Rattle.desk_core.specs.Calls.{IsAnswered, IsCut, IsMarked, IsNotCut, IsRefused, IsReloaded};

use crate::naming::Opening;
use crate::pass::Pass;
use book_core::{Book, CutFault, Receipt};
use conn_model::event::{ConnId, Event, Health, OwnedEvent, Why};
use conn_model::reply::StepFault;
use record_core::{Record, copy_event, copy_reply};
use std::alloc::{AllocError, Global};
use std::marker::PhantomData;
use std::sync::ledger;
use std::sync::ledger::Ledger;

/// A book that made as many records as the passes' calls come to.
pub(crate) struct CountedBook<M: Ledger, B: Opening> {
    pub(crate) book: Book,
    pub(crate) made: ledger::Book<M>,
    /// The greatest moment so far.
    pub(crate) latest: u64,
    pub(crate) of: PhantomData<B>,
    pub ghost counted: { book.made ≡ made.total },
    pub ghost opened: { IsOf B.opening book },
    pub ghost greatest: { latest ≡ book.state.clock },
    pub ghost rise: { MomentsRise book.records },
}

/// The moment at which a book with no record begins.
fn first_moment(book: &Book) -> u64
    requires { book.now.made ≡ 0 }
    ensures clock { result ≡ book.now.state.clock }
    ensures rise { MomentsRise book.now.records }
{
    let _journal = book.journal();
    book.base().clock
}

/// A copy of an event whose record is kept, and room for that record.
fn copy_to_keep(
    alloc: Global,
    keeps: bool,
    kept: &mut Vec<Record>,
    event: &Event,
) -> Result<Option<OwnedEvent>, AllocError>
    ensures copy { IfOk result (λ copy. MatchOption copy (keeps ≡ false) (λ e.
        (keeps ≡ true) × (e ≡ owned_event event.now) × (vec_len kept.new < vec_capacity kept.new))) }
    ensures kept { kept.new.items ≡ kept.old.items }
{
    if keeps {
        kept.reserve(1)?;
        Ok(Some(copy_event(alloc, event)?))
    } else {
        Ok(None)
    }
}

impl<M: Ledger, B: Opening> CountedBook<M, B> {
    pub(crate) fn new(book: Book, made: ledger::Book<M>) -> CountedBook<M, B>
        requires fresh { (book.made ≡ 0) × (made.total ≡ 0) }
        requires opened { IsOf B.opening book }
        ensures { result.book ≡ book }
    {
        let latest = first_moment(&book);
        CountedBook {
            book,
            made,
            latest,
            of: PhantomData,
        }
    }

    /// Says of the book what is always true of it. It does nothing.
    pub(crate) fn attest(&self)
        ensures legal { IsDeskBook B.opening self.now.book }
        ensures counted { self.now.book.made ≡ self.now.made.total }
    {
        let _journal = self.book.journal();
    }

    /// Answers one event for a pass, at the moment that was handed in or the greatest so far. `Exhausted` comes first;
    /// else the event is copied and room is made, if the pass keeps the record, before the book answers.
    pub(crate) fn step(
        &mut self,
        pass: &mut Pass<M>,
        moment: u64,
        event: &Event,
    ) -> Result<Receipt, StepFault>
        requires piece { HasPieceInLimit (owned_event event.now) }
        ensures pass { IfOk result (λ r. IsAnswered B.opening pass.old pass.new moment (owned_event event.now) r) }
        ensures reply { IfOk result (λ r. book_answer self.old.book (moment_in self.old.book moment) (owned_event event.now) ≡ Ok r.reply) }
        ensures made { IfOk result (λ r. self.new.book.made ≡ self.old.book.made + 1) }
        ensures base { self.new.book.base ≡ self.old.book.base }
        ensures open_connections { IfOk result (λ r. open_connections self.new.book.state + connections_ended (owned_event event.now) r.reply.said
            ≡ open_connections self.old.book.state + connections_opened (owned_event event.now) r.reply.said) }
        ensures few { IfOk result (λ r. (r.number < 2 ^ 64) × (open_connections self.old.book.state < open_connections self.old.book.base + r.number)) }
        ensures fault { IfErr result (IsRefused B.opening moment (owned_event event.now)) }
        ensures err { OnErr result (self.new.book ≡ self.old.book) }
        ensures unchanged { OnErr result (pass.new ≡ pass.old) }
    {
        self.attest();
        let CountedBook {
            book,
            made,
            latest,
            of: _,
        } = self;
        let Pass {
            alloc,
            calls,
            keeps,
            kept,
            share,
        } = pass;
        if book.made() == u64::MAX {
            return Err(StepFault::Exhausted);
        }
        let Ok(copy) = copy_to_keep(*alloc, *keeps, kept, event) else {
            return Err(StepFault::NoMemory);
        };
        let moment = (*latest).max(moment);
        let receipt = book.step(moment, event)?;
        *latest = moment;
        made.add(share, 1);
        made.audit(share);
        *calls += 1;
        if let Some(event) = copy {
            kept.push_reserved(Record {
                number: receipt.number,
                moment,
                event,
                reply: copy_reply(&receipt.reply),
            });
        }
        Ok(receipt)
    }

    /// Closes a connection for a pass.
    pub(crate) fn close(
        &mut self,
        pass: &mut Pass<M>,
        moment: u64,
        id: ConnId,
        why: Why,
    ) -> Result<Receipt, StepFault>
        ensures pass { IfOk result (λ r. IsAnswered B.opening pass.old pass.new moment (owned.Close id why) r) }
        ensures said { IfOk result (λ r. r.reply.said ≡ Closed id why) }
        ensures made { IfOk result (λ r. self.new.book.made ≡ self.old.book.made + 1) }
        ensures base { self.new.book.base ≡ self.old.book.base }
        ensures open_connections { IfOk result (λ r. open_connections self.new.book.state + 1 ≡ open_connections self.old.book.state) }
        ensures fault { IfErr result (IsRefused B.opening moment (owned.Close id why)) }
        ensures err { OnErr result (self.new.book ≡ self.old.book) }
        ensures unchanged { OnErr result (pass.new ≡ pass.old) }
    {
        self.step(pass, moment, &Event::Close(id, why))
    }

    /// Brings a new configuration into force for a pass.
    pub(crate) fn reload(
        &mut self,
        pass: &mut Pass<M>,
        moment: u64,
        text: &str,
    ) -> Result<Receipt, StepFault>
        ensures pass { IfOk result (λ r. IsAnswered B.opening pass.old pass.new moment (owned.Reload text.now) r) }
        ensures said { IfOk result (λ r. IsReloaded r.reply.said) }
        ensures base { self.new.book.base ≡ self.old.book.base }
        ensures open_connections { OnOk result (open_connections self.new.book.state ≡ open_connections self.old.book.state) }
        ensures fault { IfErr result (IsRefused B.opening moment (owned.Reload text.now)) }
        ensures err { OnErr result (self.new.book ≡ self.old.book) }
        ensures unchanged { OnErr result (pass.new ≡ pass.old) }
    {
        self.step(pass, moment, &Event::Reload(text))
    }

    /// Notes how a server was reported, for a pass.
    pub(crate) fn mark(
        &mut self,
        pass: &mut Pass<M>,
        moment: u64,
        backend: u16,
        server: u16,
        health: Health,
    ) -> Result<Receipt, StepFault>
        ensures pass { IfOk result (λ r. IsAnswered B.opening pass.old pass.new moment (owned.Mark backend server health) r) }
        ensures said { IfOk result (λ r. IsMarked health r.reply.said) }
        ensures base { self.new.book.base ≡ self.old.book.base }
        ensures open_connections { OnOk result (open_connections self.new.book.state ≡ open_connections self.old.book.state) }
        ensures fault { IfErr result (IsRefused B.opening moment (owned.Mark backend server health)) }
        ensures err { OnErr result (self.new.book ≡ self.old.book) }
        ensures unchanged { OnErr result (pass.new ≡ pass.old) }
    {
        self.step(pass, moment, &Event::Mark(backend, server, health))
    }

    /// Hands the records in memory over as one segment.
    pub(crate) fn cut(&mut self) -> Result<(), CutFault>
        ensures cut { OnOk result (IsCut B.opening) }
        ensures fault { IfErr result (IsNotCut B.opening) }
        ensures base { self.new.book.base ≡ self.old.book.base }
        ensures state { self.new.book.state ≡ self.old.book.state }
    {
        self.attest();
        let CountedBook {
            book,
            made: _,
            latest: _,
            of: _,
        } = self;
        book.cut()
    }
}
