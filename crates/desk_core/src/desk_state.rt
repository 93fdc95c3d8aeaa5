//! What the lock of a desk guards.
ghost use Rattle.std.specs.Prelude.{◌≡◌, ◌-◌, ◌+◌, ◌^◌, IfOk, IfErr, OnErr, OnOk};
ghost use Rattle.std.specs.Option.{option_map};
ghost use Rattle.conn_model.specs.HandedIn.{HasPieceInLimit};
ghost use Rattle.conn_model.specs.History.{owned_event};
ghost use Rattle.conn_model.specs.declared.event.OwnedEvent.TheVariants as owned;
ghost use Rattle.conn_model.specs.declared.reply.Said.TheVariants.{Closed};
ghost use Rattle.conn_model.specs.Counts.{open_connections};
ghost use Rattle.desk_core.specs.Calls.{open_id, HasEntries, HasVersions, IsAnswered, IsCounted, IsCut, IsMarked, IsNotCut, IsRefused, IsReloaded};

use crate::counted::CountedBook;
use crate::lease::{Drive, DriveResult, Lease};
use crate::naming::Opening;
use crate::pass::Pass;
use addr_core::Pair;
use book_core::{CutFault, Receipt};
use conn_model::ask::{Ask, Counts};
use conn_model::event::{ConnId, Event, Health, Why};
use conn_model::reply::{Said, StepFault};
use std::sync::ledger;
use std::sync::ledger::{Ledger, Share};

fn open_connection(said: &Said) -> Option<ConnId>
    ensures { result ≡ open_id said.now }
{
    match *said {
        Said::Wait { id, .. } | Said::Offer { id, .. } => Some(id),
        _ => None,
    }
}

/// What the lock guards. Whenever it is free, as many connections are open as leases are out.
pub(crate) struct DeskState<M: Ledger, O: Ledger, B: Opening> {
    pub(crate) counted: CountedBook<M, B>,
    pub(crate) leases: ledger::Book<O>,
    pub(crate) idle: Share<O>,
    /// How many leases are out.
    pub(crate) live: u64,
    pub ghost leased: { open_connections counted.book.state ≡ leases.total },
    pub ghost lives: { live ≡ leases.total },
    pub ghost begun: { open_connections counted.book.base ≡ 0 },
    pub ghost none: { idle.amount ≡ 0 },
    pub ghost parts: { idle.parts + leases.total ≡ 2 ^ 64 - 1 },
}

impl<M: Ledger, O: Ledger, B: Opening> DeskState<M, O, B> {
    ghost use Rattle.desk_core.specs.Driving.{driven_event, EndsOnly, IsDriven};

    pub(crate) fn accept(
        &mut self,
        pass: &mut Pass<M>,
        moment: u64,
        listener: u16,
        real: &Pair,
    ) -> Result<(Receipt, Option<Lease<O>>), StepFault>
        ensures pass { IfOk result (λ r. IsAnswered B.opening pass.old pass.new moment (owned.Accept listener real.now) r.0) }
        ensures lease { IfOk result (λ r. option_map (λ lease. lease.id) r.1 ≡ open_id r.0.reply.said) }
        ensures fault { IfErr result (IsRefused B.opening moment (owned.Accept listener real.now)) }
        ensures err { OnErr result (pass.new ≡ pass.old) }
    {
        let DeskState {
            counted,
            leases,
            idle,
            live,
        } = self;
        let receipt = counted.step(pass, moment, &Event::Accept(listener, *real))?;
        match open_connection(&receipt.reply.said) {
            Some(id) => {
                leases.add(idle, 1);
                *live += 1;
                let unit = idle.split_off(1, 1);
                let settings = counted.book.settings(id);
                Ok((receipt, Some(Lease { id, unit, settings })))
            }
            None => Ok((receipt, None)),
        }
    }

    fn on_lease(
        &mut self,
        pass: &mut Pass<M>,
        moment: u64,
        lease: Lease<O>,
        event: &Event,
    ) -> DriveResult<O>
        requires ends { EndsOnly (owned_event event.now) }
        requires piece { HasPieceInLimit (owned_event event.now) }
        ensures { IsDriven B.opening pass.old pass.new moment (owned_event event.now) lease.id result }
    {
        let DeskState {
            counted,
            leases,
            idle,
            live,
        } = self;
        match counted.step(pass, moment, event) {
            Ok(receipt) => {
                if receipt.reply.said.is_last() {
                    let mut unit = lease.into_unit();
                    leases.sub(&mut unit, 1);
                    *live -= 1;
                    idle.merge(unit);
                    DriveResult::Over(receipt)
                } else {
                    let mut lease = lease;
                    if let Said::Offer { .. } = receipt.reply.said {
                        lease.settings = counted.book.settings(lease.id);
                    }
                    DriveResult::Goes(receipt, lease)
                }
            }
            Err(fault) => DriveResult::Failed(fault, lease),
        }
    }

    pub(crate) fn drive(
        &mut self,
        pass: &mut Pass<M>,
        moment: u64,
        lease: Lease<O>,
        drive: &Drive<'_>,
    ) -> DriveResult<O>
        requires piece { HasPieceInLimit (driven_event lease.id drive.now) }
        ensures { IsDriven B.opening pass.old pass.new moment (driven_event lease.id drive.now) lease.id result }
    {
        let id = lease.id;
        match *drive {
            Drive::Piece(bytes) => self.on_lease(pass, moment, lease, &Event::Piece(id, bytes)),
            Drive::Connected => self.on_lease(pass, moment, lease, &Event::Connected(id)),
            Drive::ConnectFailed => self.on_lease(pass, moment, lease, &Event::ConnectFailed(id)),
            Drive::Expire => self.on_lease(pass, moment, lease, &Event::Expire(id)),
        }
    }

    pub(crate) fn close(
        &mut self,
        pass: &mut Pass<M>,
        moment: u64,
        lease: Lease<O>,
        why: Why,
    ) -> Result<Receipt, (StepFault, Lease<O>)>
        ensures pass { IfOk result (λ r. IsAnswered B.opening pass.old pass.new moment (owned.Close lease.id why) r) }
        ensures said { IfOk result (λ r. r.reply.said ≡ Closed lease.id why) }
        ensures fault { IfErr result (λ failed. IsRefused B.opening moment (owned.Close lease.id why) failed.0) }
        ensures err { IfErr result (λ failed. (pass.new ≡ pass.old) × (failed.1.id ≡ lease.id)) }
    {
        let DeskState {
            counted,
            leases,
            idle,
            live,
        } = self;
        match counted.close(pass, moment, lease.id, why) {
            Ok(receipt) => {
                let mut unit = lease.into_unit();
                leases.sub(&mut unit, 1);
                *live -= 1;
                idle.merge(unit);
                Ok(receipt)
            }
            Err(fault) => Err((fault, lease)),
        }
    }

    pub(crate) fn reload(
        &mut self,
        pass: &mut Pass<M>,
        moment: u64,
        text: &str,
    ) -> Result<Receipt, StepFault>
        ensures pass { IfOk result (λ r. IsAnswered B.opening pass.old pass.new moment (owned.Reload text.now) r) }
        ensures said { IfOk result (λ r. IsReloaded r.reply.said) }
        ensures fault { IfErr result (IsRefused B.opening moment (owned.Reload text.now)) }
        ensures err { OnErr result (pass.new ≡ pass.old) }
    {
        self.counted.reload(pass, moment, text)
    }

    pub(crate) fn mark(
        &mut self,
        pass: &mut Pass<M>,
        moment: u64,
        backend: u16,
        server: u16,
        health: Health,
    ) -> Result<Receipt, StepFault>
        ensures pass { IfOk result (λ r. IsAnswered B.opening pass.old pass.new moment (owned.Mark backend server health) r) }
        ensures said { IfOk result (λ r. IsMarked health r.reply.said) }
        ensures fault { IfErr result (IsRefused B.opening moment (owned.Mark backend server health)) }
        ensures err { OnErr result (pass.new ≡ pass.old) }
    {
        self.counted.mark(pass, moment, backend, server, health)
    }

    pub(crate) fn cut(&mut self) -> Result<(), CutFault>
        ensures cut { OnOk result (IsCut B.opening) }
        ensures fault { IfErr result (IsNotCut B.opening) }
    {
        self.counted.cut()
    }

    pub(crate) fn counts(&self, ask: &Ask) -> Option<Counts>
        ensures { IsCounted B.opening ask.now result }
    {
        self.counted.attest();
        self.counted.book.counts(ask)
    }

    pub(crate) fn entries(&self, number: u16) -> Option<u64>
        ensures { HasEntries B.opening number result }
    {
        self.counted.attest();
        self.counted.book.entries(number)
    }

    pub(crate) fn versions(&self) -> u64
        ensures { HasVersions B.opening result }
    {
        self.counted.attest();
        self.counted.book.versions()
    }
}
