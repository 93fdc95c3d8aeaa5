//! What is counted of what both say of a record.
ghost use Rattle.std.specs.Prelude.{◌≡◌, ◌++◌, position, Some, OnOk, option_map};
ghost use Rattle.std.specs.List.{flat_map};
ghost use Rattle.text_core.specs.Decimal.{decimal};
ghost use Rattle.whatif_core.specs.Deciding.{pair_text};
ghost use Rattle.whatif_core.specs.Sums.{changed_text, failures_text, has_text, more, no_sums, one_more, others_text};
ghost use Rattle.whatif_core.specs.Sums.{pair_line, pairs_on, pairs_with, sums_text, sums_with};

use crate::decision::ComparedDecision;
use crate::text::{write_pair, write_text};
use crate::turn::Turn;
use list_core::Seq;
use std::alloc::{AllocError, Global};
use std::marker::Model;
use text_core::decimal::append_decimal;

/// How often two decisions that differ came up.
#[derive(Debug, Drop)]
pub struct PairCount {
    /// Both decisions in short.
    pub text: Seq<u8>,
    pub count: u64,
}

/// What is counted of what both say of a record.
#[derive(Drop)]
pub struct DecisionTally {
    alloc: Global,
    /// In the order in which they came up first.
    pairs: Vec<PairCount>,
    changed: u64,
    accepted: u64,
    other_server: u64,
    let_in: u64,
    lost: u64,
    saved: u64,
    /// How often anything differs.
    differing: u64,
}

impl Model for DecisionTally {
    ghost use Rattle.whatif_core.specs.Sums.{Sums};

    ghost Value = { Sums };

    ghost view = { λ t. record {
      pairs = t.pairs.items;
      changed = t.changed;
      accepted = t.accepted;
      other_server = t.other_server;
      let_in = t.let_in;
      lost = t.lost;
      saved = t.saved;
      differing = t.differing;
    } };
}

/// One more. A count does not pass 2^64 - 1.
fn one_more(count: u64) -> u64
    ensures { result ≡ one_more count }
{
    if count < u64::MAX { count + 1 } else { count }
}

fn more(count: u64, is: bool) -> u64
    ensures { result ≡ more count is }
{
    if is { one_more(count) } else { count }
}

/// Where two decisions of that text are counted.
fn place_of(pairs: &[PairCount], text: &[u8]) -> Option<usize>
    ensures { result ≡ position (has_text text.now) pairs.now }
{
    pairs.iter().position(|pair| pair.text.as_slice() == text)
}

/// Counts two decisions of that text.
fn count_pair(pairs: &mut Vec<PairCount>, text: Vec<u8>) -> Result<(), AllocError>
    ensures { OnOk result (pairs.new.items ≡ pairs_on text.items pairs.old.items) }
{
    match place_of(pairs.as_slice(), text.as_slice()) {
        Some(place) => {
            let pair = &mut pairs[place];
            pair.count = one_more(pair.count);
            Ok(())
        }
        None => {
            let first = PairCount {
                text: Seq::of(text),
                count: 1,
            };
            pairs.push(first)?;
            Ok(())
        }
    }
}

/// Counts two decisions, if they differ.
fn count_difference(
    alloc: Global,
    pairs: &mut Vec<PairCount>,
    difference: Option<(&ComparedDecision, &ComparedDecision)>,
) -> Result<(), AllocError>
    ensures { OnOk result (pairs.new.items ≡ pairs_with pairs.old.items (option_map (λ pair. (pair.0.now, pair.1.now)) difference.entry)) }
{
    let Some((was, would)) = difference else {
        return Ok(());
    };
    let mut text = Vec::new(alloc);
    write_pair(&mut text, was, would)?;
    count_pair(pairs, text)
}

/// Appends a count after a text.
fn write_count(out: &mut Vec<u8>, text: &[u8], count: u64) -> Result<(), AllocError>
    ensures { OnOk result (out.new.items ≡ out.old.items ++ (text.now ++ decimal count)) }
{
    out.extend_from_slice(text)?;
    append_decimal(out, count)
}

fn write_changed(out: &mut Vec<u8>, changed: u64, accepted: u64) -> Result<(), AllocError>
    ensures { OnOk result (out.new.items ≡ out.old.items ++ changed_text changed accepted) }
{
    write_count(out, b"changed ", changed)?;
    write_count(out, b" of ", accepted)
}

fn write_others(out: &mut Vec<u8>, other_server: u64, let_in: u64) -> Result<(), AllocError>
    ensures { OnOk result (out.new.items ≡ out.old.items ++ others_text other_server let_in) }
{
    write_count(out, b"\nother server ", other_server)?;
    write_count(out, b"\nlet in ", let_in)
}

fn write_failures(out: &mut Vec<u8>, lost: u64, saved: u64) -> Result<(), AllocError>
    ensures { OnOk result (out.new.items ≡ out.old.items ++ failures_text lost saved) }
{
    write_count(out, b"\nlost ", lost)?;
    write_count(out, b"\nsaved ", saved)?;
    write_text(out, b"\n")
}

fn write_pairs(out: &mut Vec<u8>, pairs: &[PairCount]) -> Result<(), AllocError>
    ensures { OnOk result (out.new.items ≡ out.old.items ++ flat_map pair_line pairs.now) }
{
    for pair in pairs {
        append_decimal(out, pair.count)?;
        out.extend_from_slice(b" ")?;
        out.extend_from_slice(pair.text.as_slice())?;
        out.extend_from_slice(b"\n")?;
    }
    Ok(())
}

impl DecisionTally {
    pub fn new(alloc: Global) -> Self
        ensures { result ≡ no_sums }
    {
        DecisionTally {
            alloc,
            pairs: Vec::new(alloc),
            changed: 0,
            accepted: 0,
            other_server: 0,
            let_in: 0,
            lost: 0,
            saved: 0,
            differing: 0,
        }
    }

    /// How often anything differs.
    pub fn differing(&self) -> u64
        ensures { result ≡ self.now.differing }
    {
        self.differing
    }

    /// Counts what both say of an entry.
    pub fn count(&mut self, turn: &Turn) -> Result<(), AllocError>
        ensures { OnOk result (self.new ≡ sums_with self.old turn.now) }
    {
        count_difference(self.alloc, &mut self.pairs, turn.difference())?;
        self.changed = more(self.changed, turn.difference().is_some());
        self.accepted = more(self.accepted, turn.peer.is_some());
        self.other_server = more(self.other_server, turn.has_other_server());
        self.let_in = more(self.let_in, turn.let_in);
        self.lost = more(self.lost, turn.is_lost());
        self.saved = more(self.saved, turn.is_saved());
        self.differing = more(self.differing, turn.is_differing());
        Ok(())
    }

    /// Appends the lines of what was counted. If memory runs out, the front of them may be there.
    pub fn write(&self, out: &mut Vec<u8>) -> Result<(), AllocError>
        ensures { OnOk result (out.new.items ≡ out.old.items ++ sums_text self.now) }
    {
        write_pairs(out, self.pairs.as_slice())?;
        write_changed(out, self.changed, self.accepted)?;
        write_others(out, self.other_server, self.let_in)?;
        write_failures(out, self.lost, self.saved)
    }
}
