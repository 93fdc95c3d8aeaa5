//! Whether the receipts that passes keep are the records of a book.
ghost use Rattle.std.specs.Prelude.{◌++◌, ◌∷◌, ◌↔◌, [], IsTrue, OnOk, IfErr};
ghost use Rattle.std.specs.List.{All};
ghost use Rattle.desk_core.specs.Calls.{kept_of};
ghost use Rattle.desk_core.specs.Receipts.{record_from, AreBelow, AreReceipts, HasEarlier, HasNumber, IsFaultOf, IsFirstFault, NumbersRise};

use crate::pass::Pass;
use crate::records::Records;
use crate::same::same_record;
use record_core::Record;
use std::sync::ledger::Ledger;

/// Why a desk's passes and leases do not account for its book.
#[derive(Clone, Copy, Debug, PartialEq, Eq)]
pub enum SettleFault {
    /// The receipt of that number differs from the record, or the number does not rise in its pass.
    WrongReceipt(u64),
    /// No record has the number of a receipt.
    Missing(u64),
    /// An earlier pass has a receipt of that number.
    Twice(u64),
    /// The passes are not as many as were given out, or the leases not as many as the open connections.
    NotAll,
}

/// Whether a record of the pass has the number, by halving.
fn has_number(pass: &[Record], number: u64) -> bool
    requires { NumbersRise pass.now }
    ensures { IsTrue result ↔ HasNumber pass.now number }
{
    let mut low = 0usize;
    let mut high = pass.len();
    while low < high {
        let middle = low + (high - low) / 2;
        let at = pass[middle].number;
        if at == number {
            return true;
        }
        if at < number {
            low = middle + 1;
        } else {
            high = middle;
        }
    }
    false
}

/// Whether one of the passes has the number.
fn has_earlier<M: Ledger>(before: &[Pass<M>], number: u64) -> bool
    requires { All NumbersRise (kept_of before.now) }
    ensures { IsTrue result ↔ HasEarlier (kept_of before.now) number }
{
    for pass in before {
        if has_number(pass.kept(), number) {
            return true;
        }
    }
    false
}

/// Whether the number is above all in this part of a pass.
fn is_above(part: &[Record], number: u64) -> bool
    requires { NumbersRise part.now }
    ensures { IsTrue result ↔ AreBelow part.now number }
{
    match part.last() {
        Some(last) => last.number < number,
        None => true,
    }
}

/// Whether a receipt is right that comes after these passes and this part of its own.
fn check_receipt<M: Ledger>(
    records: &Records<'_>,
    before: &[Pass<M>],
    part: &[Record],
    receipt: &Record,
) -> Result<(), SettleFault>
    requires { AreReceipts (record_from records.now) (kept_of before.now ++ part.now ∷ []) }
    ensures ok { OnOk result (AreReceipts (record_from records.now) (kept_of before.now ++ (part.now ++ receipt.now ∷ []) ∷ [])) }
    ensures bad { IfErr result (λ f. IsFaultOf (record_from records.now) (kept_of before.now) part.now receipt.now f) }
{
    let number = receipt.number;
    let Some(record) = records.find(number) else {
        return Err(SettleFault::Missing(number));
    };
    if !same_record(record, receipt) {
        return Err(SettleFault::WrongReceipt(number));
    }
    if !is_above(part, number) {
        return Err(SettleFault::WrongReceipt(number));
    }
    if has_earlier(before, number) {
        return Err(SettleFault::Twice(number));
    }
    Ok(())
}

/// Whether the receipts of one more pass are right.
fn check_pass<M: Ledger>(
    records: &Records<'_>,
    before: &[Pass<M>],
    pass: &[Record],
) -> Result<(), SettleFault>
    requires { AreReceipts (record_from records.now) (kept_of before.now) }
    ensures ok { OnOk result (AreReceipts (record_from records.now) (kept_of before.now ++ pass.now ∷ [])) }
    ensures bad { IfErr result (λ f. IsFirstFault (record_from records.now) (kept_of before.now ++ pass.now ∷ []) f) }
{
    for at in 0..pass.len() {
        let receipt = &pass[at];
        if let Err(fault) = check_receipt(records, before, &pass[..at], receipt) {
            return Err(fault);
        }
    }
    Ok(())
}

/// Whether the receipts that the passes keep are the records of their numbers, each the receipt of one call alone.
pub(crate) fn check_receipts<M: Ledger>(
    records: &Records<'_>,
    passes: &[Pass<M>],
) -> Result<(), SettleFault>
    ensures ok { OnOk result (AreReceipts (record_from records.now) (kept_of passes.now)) }
    ensures bad { IfErr result (λ f. IsFirstFault (record_from records.now) (kept_of passes.now) f) }
{
    for at in 0..passes.len() {
        let pass = passes[at].kept();
        if let Err(fault) = check_pass(records, &passes[..at], pass) {
            return Err(fault);
        }
    }
    Ok(())
}
