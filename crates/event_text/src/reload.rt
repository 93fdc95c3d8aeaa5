//! Reloads: the text of a new configuration, line by line.
ghost use Rattle.std.specs.Prelude.{◌≡◌, ◌+◌, ◌∷◌, ◌<◌, List, ℕ, [], length, option_map, OnOk, OnErr};
ghost use Rattle.conn_model.specs.History.{owned_event};
ghost use Rattle.conn_model.specs.declared.event.OwnedEvent.TheVariants as owned;
ghost use Rattle.event_text.specs.Script.{bar_text, pending_reload, text_with, with_text};

use conn_model::event::Event;
use std::alloc::{AllocError, Global};
use std::marker::Model;
use std::str::from_utf8;

/// The text of a line after its bar.
pub fn read_bar(line: &[u8]) -> Option<&str>
    ensures { option_map (λ text. text.now) result ≡ bar_text line.now }
{
    if line.is_empty() || line[0] != b'|' {
        return None;
    }
    from_utf8(&line[1..]).ok()
}

/// A reload of which lines are missing, until it is whole.
#[derive(Drop)]
pub struct PendingReload {
    moment: u64,
    missing: u64,
    /// The lines that came, each with its end unless it is the last one.
    text: String,
}

impl Model for PendingReload {
    ghost use Rattle.std.specs.Prelude.{string_bytes};
    ghost use Rattle.event_text.specs.Script.{Pending};

    ghost Value = { Pending };

    ghost view = { λ r. record { moment = r.moment; missing = r.missing; text = string_bytes r.text } };
}

impl PendingReload {
    /// A reload at a moment in ms, of which that many lines are missing.
    pub fn new(alloc: Global, moment: u64, lines: u64) -> PendingReload
        ensures { result ≡ pending_reload moment lines }
    {
        PendingReload {
            moment,
            missing: lines,
            text: String::new(alloc),
        }
    }

    /// When it is handed in, in ms.
    pub fn moment(&self) -> u64
        ensures { result ≡ self.now.moment }
    {
        self.moment
    }

    /// How many lines are missing.
    pub fn missing(&self) -> u64
        ensures { result ≡ self.now.missing }
    {
        self.missing
    }

    /// Takes the text of the next line.
    pub fn add(&mut self, text: &str) -> Result<(), AllocError>
        requires { 0 < self.old.missing }
        ensures new { OnOk result (self.new ≡ with_text self.old text.now) }
        ensures moment { self.new.moment ≡ self.old.moment }
        ensures missing { OnOk result (self.old.missing ≡ self.new.missing + 1) }

        // The texts of the lines that are still missing make the same text with it.
        ensures text { OnOk result ((texts : List (List ℕ)) → length texts ≡ self.new.missing → text_with self.new texts ≡ text_with self.old (text.now ∷ texts)) }
        ensures err { OnErr result (self.new ≡ self.old) }
    {
        self.text.reserve(text.len() + 1)?;
        self.text.push_str(text)?;
        if self.missing > 1 {
            self.text.push_str("\n")?;
        }
        self.missing -= 1;
        Ok(())
    }

    /// The event, once no line is missing.
    pub fn event(&self) -> Event<'_>
        requires { self.now.missing ≡ 0 }
        ensures { owned_event result ≡ owned.Reload (text_with self.now []) }
    {
        Event::Reload(self.text.as_str())
    }
}
