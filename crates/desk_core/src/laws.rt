//! Laws of receipts.
ghost use Rattle.desk_core.specs.Receipts.{EachIsReceiptOfOneCall, FirstFaultIsOne};

/// Where the passes keep as many receipts as there are records, each record is the receipt of exactly one call.
pub fn each_is_receipt_of_one_call()
    ensures { EachIsReceiptOfOneCall }
{}

/// Where the receipts are right none of them has a fault, and else one fault alone is the first.
pub fn first_fault_is_one()
    ensures { FirstFaultIsOne }
{}
