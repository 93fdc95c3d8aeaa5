//! Events as lines.
ghost use Rattle.std.specs.Prelude.{◌≡◌, ◌+◌, ◌<◌, ◌^◌, ◌++◌, ◌∷◌, length, codes, OnOk, Some};
ghost use Rattle.conn_model.specs.HandedIn.{IsHandedIn};
ghost use Rattle.event_text.specs.Script.{bar_lines, ended_lines, event_in_lines, event_line, event_lines, event_text, text_lines};

use crate::digits::write_piece;
use crate::replies::{
    write_accept, write_byte, write_ended, write_field, write_health, write_named, write_text,
};
use conn_model::event::OwnedEvent;
use std::alloc::AllocError;
use text_core::cut_at;
use text_core::decimal::append_decimal;

/// How many lines a text has: one more than it has line feeds.
fn count_lines(text: &[u8]) -> u64
    requires { length text.now + 1 < 2 ^ 64 }
    ensures { result ≡ length (text_lines text.now) }
{
    let mut lines = 1u64;
    for byte in text {
        if *byte == b'\n' {
            lines += 1;
        }
    }
    lines
}

fn write_words(out: &mut Vec<u8>, moment: u64, event: &OwnedEvent) -> Result<(), AllocError>
    ensures { OnOk result (out.new.items ≡ out.old.items ++ event_line moment event.now) }
{
    append_decimal(out, moment)?;
    match event {
        OwnedEvent::Accept(listener, real) => write_accept(out, *listener, real),
        OwnedEvent::Piece(id, bytes) => {
            write_named(out, b" piece ", id)?;
            write_byte(out, b' ')?;
            write_piece(out, bytes.as_slice())
        }
        OwnedEvent::Connected(id) => write_named(out, b" connected ", id),
        OwnedEvent::ConnectFailed(id) => write_named(out, b" failed ", id),
        OwnedEvent::Close(id, why) => write_ended(out, b" close ", id, why),
        OwnedEvent::Expire(id) => write_named(out, b" expire ", id),
        OwnedEvent::Reload(text) => write_field(out, b" reload ", count_lines(text.as_slice())),
        OwnedEvent::Mark(backend, server, health) => {
            write_field(out, b" server ", u64::from(*backend))?;
            write_field(out, b" ", u64::from(*server))?;
            write_text(out, b" ")?;
            write_health(out, *health)
        }
    }
}

/// A line of a text, after a bar.
fn write_bar(out: &mut Vec<u8>, line: &[u8]) -> Result<(), AllocError>
    ensures { OnOk result (out.new.items ≡ out.old.items ++ (0x7C ∷ line.now ++ codes "\n")) }
{
    write_byte(out, b'|')?;
    write_text(out, line)?;
    write_byte(out, b'\n')
}

/// The lines of a text, each after a bar.
fn write_bars(out: &mut Vec<u8>, text: &[u8]) -> Result<(), AllocError>
    ensures { OnOk result (out.new.items ≡ out.old.items ++ ended_lines (bar_lines text.now)) }
{
    let mut rest = text;
    while let Some((line, more)) = cut_at(rest, b'\n') {
        write_bar(out, line)?;
        rest = more;
    }
    write_bar(out, rest)
}

fn write_lines(out: &mut Vec<u8>, moment: u64, event: &OwnedEvent) -> Result<(), AllocError>
    ensures { OnOk result (out.new.items ≡ out.old.items ++ event_text moment event.now) }
{
    write_words(out, moment, event)?;
    write_byte(out, b'\n')?;
    if let OwnedEvent::Reload(text) = event {
        write_bars(out, text.as_slice())?;
    }
    Ok(())
}

/// Appends the lines that hand in an event at a moment, in ms. Where memory runs out, the front of them may be there.
pub fn write_event(out: &mut Vec<u8>, moment: u64, event: &OwnedEvent) -> Result<(), AllocError>
    ensures text { OnOk result (out.new.items ≡ out.old.items ++ event_text moment event.now) }

    // Those lines hand in that event.
    ensures again { IsHandedIn event.now → event_in_lines (event_lines moment event.now) ≡ Some (moment, event.now) }
{
    write_lines(out, moment, event)
}
