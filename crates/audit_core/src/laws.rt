//! Laws of records.
ghost use Rattle.std.specs.Prelude.{◌≡◌, ◌≤◌, ℕ, List, [], length, Some, Ok, Err};
ghost use Rattle.plan_types.specs.declared.plan.Plan.{Plan};
ghost use Rattle.conn_model.specs.History.{opening};
ghost use Rattle.text_core.specs.Parts.{parts, is_line_feed};
ghost use Rattle.audit_core.specs.Record.{history_text};
ghost use Rattle.audit_core.specs.Recording.{IsCutOff, IsRecorded};
ghost use Rattle.audit_core.specs.Verdict.{counts_of, verdict, IsWithinLimits};
ghost use Rattle.audit_core.specs.declared.fault.CheckFault.{CheckFault};

/// What was written of a history from the opening of a configuration on, as `serve` writes it, is found right by a check
/// against that configuration. If the writing was cut anywhere, what is there is found right up to its last line: only that
/// one can be faulty, or one that is missing after it. The limits are those of `line_reader::MOST_LINE_BYTES` and
/// `MOST_RECORD_LINES`.
pub fn what_is_written_is_found_right()
    ensures whole { (plan : Plan) (text : List ℕ) →
        (written : IsRecorded (opening plan 0) (Some []) (Some text)) → IsWithinLimits (parts is_line_feed text) →
        verdict plan text ≡ Ok (counts_of (opening plan 0) written.history) }
    ensures cut { (plan : Plan) (text : List ℕ) →
        (written : IsCutOff (opening plan 0) (Some []) (Some text)) →
        IsWithinLimits (parts is_line_feed (history_text written.history)) →
        (fault : CheckFault) → verdict plan text ≡ Err fault → length (parts is_line_feed text) ≤ fault.line }
{}
