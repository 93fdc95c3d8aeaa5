//! Records are written.
ghost use Rattle.std.specs.Prelude.{◌≡◌, ◌++◌, OnOk};
ghost use Rattle.record_core.specs.Records.{entry_of};
ghost use Rattle.audit_core.specs.Record.{entry_text, recorded_reply};

use conn_model::event::OwnedEvent;
use conn_model::reply::Reply;
use event_text::{write_event, write_reply, write_reply_text};
use record_core::Record;
use std::alloc::AllocError;
use text_core::decimal::append_decimal;

/// Appends the line of a reply, without its end.
pub fn write_recorded(out: &mut Vec<u8>, reply: &Reply) -> Result<(), AllocError>
    ensures { OnOk result (out.new.items ≡ out.old.items ++ recorded_reply reply.now) }
{
    out.extend_from_slice(b"= ")?;
    write_reply_text(out, reply)
}

/// Appends the lines of a record: those of its event under its number, and its reply. The records of a book, written one
/// after the other, are what `check_record` reads. If memory runs out, the front of these lines may be there.
pub fn write_record(out: &mut Vec<u8>, entry: &Record) -> Result<(), AllocError>
    ensures { OnOk result (out.new.items ≡ out.old.items ++ entry_text entry.now.number (entry_of entry.now)) }
{
    append_decimal(out, entry.number)?;
    out.push(b' ')?;
    write_event(out, entry.moment, &entry.event)?;
    write_recorded(out, &entry.reply)?;
    out.push(b'\n')?;
    Ok(())
}
