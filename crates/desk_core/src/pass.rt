//! The calls of one caller.
ghost use Rattle.std.specs.Prelude.{◌≡◌, [], length, if◌then◌else◌};
ghost use Rattle.desk_core.specs.Calls.{IsWhole};

use record_core::Record;
use std::alloc::Global;
use std::marker::Model;
use std::sync::ledger::{Ledger, Share};

/// The calls of one caller that were answered: how many, and, if it keeps them, their records.
#[derive(Drop)]
pub struct Pass<M: Ledger> {
    pub(crate) alloc: Global,
    pub(crate) calls: u64,
    pub(crate) keeps: bool,
    pub(crate) kept: Vec<Record>,
    pub(crate) share: Share<M>,
}

impl<M: Ledger> Model for Pass<M> {
    ghost use Rattle.std.specs.Prelude.{◌≡◌, length, if◌then◌else◌};
    ghost use Rattle.desk_core.specs.Calls.{PassState};

    ghost Value = { PassState };

    ghost view = { λ p. record { calls = p.calls; keeps = p.keeps; kept = p.kept.items } };

    ghost invariant = { λ p. (p.share.parts ≡ 1) × (p.share.amount ≡ p.calls) × (length p.kept.items ≡ (if p.keeps then p.calls else 0)) };
}

impl<M: Ledger> Pass<M> {
    pub(crate) fn new(alloc: Global, keeps: bool, share: Share<M>) -> Pass<M>
        requires { (share.parts ≡ 1) × (share.amount ≡ 0) }
        ensures { (result.calls ≡ 0) × (result.keeps ≡ keeps) × (result.kept ≡ []) }
    {
        Pass {
            alloc,
            calls: 0,
            keeps,
            kept: Vec::new(alloc),
            share,
        }
    }

    /// How many of its calls were answered.
    pub fn calls(&self) -> u64
        ensures { result ≡ self.now.calls }
    {
        self.calls
    }

    /// The records of its calls, the oldest first, if it keeps them.
    pub fn kept(&self) -> &[Record]
        ensures records { result.now ≡ self.now.kept }
        ensures whole { IsWhole self.now }
    {
        self.kept.as_slice()
    }

    /// Gives its part of the ledger back, with its calls.
    pub(crate) fn into_share(self) -> Share<M>
        ensures parts { result.parts ≡ 1 }
        ensures amount { result.amount ≡ self.calls }
        ensures whole { IsWhole self }
    {
        let Pass {
            alloc: _,
            calls: _,
            keeps: _,
            kept: _,
            share,
        } = self;
        share
    }
}
