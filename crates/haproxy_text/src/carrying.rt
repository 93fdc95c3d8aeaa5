//! A configuration of HAProxy's is carried over.
ghost use Rattle.std.specs.Prelude.{◌≡◌, true, IfOk, IsOk};
ghost use Rattle.std.specs.String.{string_bytes};
ghost use Rattle.config_core.specs.Meaning.{meaning};

use crate::drafting::Draft;
use crate::item::Item;
use crate::settling::settle;
use crate::source::read_sections;
use crate::writing::{counts_of, written};
use config_core::{OpenFault, read_plan};
use std::alloc::{AllocError, Global};

/// A configuration for `l4proxy`, and what it lacks of that of HAProxy.
#[derive(Drop)]
pub struct CarriedConfig {
    pub text: String,
    /// How many lines are left out, and how many of these limit, refuse, keep or serve clients.
    pub left_out: u32,
    pub of_clients: u32,
    /// Whether the text is a configuration. It is, unless no frontend is left, or the text is too long.
    pub is_accepted: bool,
}

/// Whether a text is a configuration.
fn is_accepted(alloc: Global, text: &str) -> Result<bool, AllocError>
    ensures { IfOk result (λ accepted. accepted ≡ true → IsOk (meaning text.now)) }
{
    match read_plan(alloc, text) {
        Ok(_plan) => Ok(true),
        Err(OpenFault::NoMemory) => Err(AllocError),
        Err(_) => Ok(false),
    }
}

/// The lines for `l4proxy`, of which all that are refused are left out.
fn carried_lines(alloc: Global, text: &str) -> Result<Vec<Item>, AllocError> {
    let sections = read_sections(alloc, text)?;
    let mut draft = Draft::new(alloc);
    for section in &sections {
        draft.take(section)?;
    }
    let Draft { mut items, .. } = draft;
    settle(alloc, &mut items)?;
    Ok(items)
}

/// The configuration for `l4proxy` that says the same as one of HAProxy's. What is not taken is left out as a comment,
/// and says why; what HAProxy does without a line, and `l4proxy` does not, is added.
pub fn carry_over(alloc: Global, text: &str) -> Result<CarriedConfig, AllocError>
    ensures { IfOk result (λ carried.
        carried.is_accepted ≡ true → IsOk (meaning (string_bytes carried.text))) }
{
    let items = carried_lines(alloc, text)?;
    let counts = counts_of(items.as_slice());
    let text = written(alloc, items.as_slice(), counts)?;
    let is_accepted = is_accepted(alloc, text.as_str())?;
    Ok(CarriedConfig {
        text,
        left_out: counts.left_out,
        of_clients: counts.of_clients,
        is_accepted,
    })
}
