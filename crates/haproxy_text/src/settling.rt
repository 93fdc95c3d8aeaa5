//! Lines that are refused where the draft is read are left out, until all that is left is accepted.
use crate::item::{Fate, Item};
use config_core::{OpenFault, read_plan};
use refusal_text::{Concern, LineVerdict, begins_section, verdict_on};
use std::alloc::{AllocError, Global};

/// So often a draft is read at most.
const MOST_READINGS: usize = 65_536;

/// The draft as a text, and for each of its lines the number of its item.
#[derive(Drop)]
struct DraftText {
    text: String,
    items: Vec<usize>,
}

fn text_of(alloc: Global, items: &[Item]) -> Result<DraftText, AllocError> {
    let mut draft = DraftText {
        text: String::new(alloc),
        items: Vec::new(alloc),
    };
    for (number, item) in items.iter().enumerate() {
        if !item.code.is_empty() {
            draft.text.push_str(item.code.as_str())?;
            draft.text.push('\n')?;
            draft.items.push(number)?;
        }
    }
    Ok(draft)
}

/// Leaves out the lines below one that begins a section, up to the next section.
fn leave_out_rest(items: &mut [Item], head: usize) {
    for item in items.iter_mut().skip(head.saturating_add(1)) {
        if begins_section(item.keyword()) {
            break;
        }
        if item.fate == Fate::Kept && !item.code.is_empty() {
            item.fate = Fate::LeftOut;
            item.concern = Concern::Clients;
            item.code.clear();
        }
    }
}

/// The number of the line that begins the section of the line of that number.
fn head_of(items: &[Item], at: usize) -> usize {
    let mut head = 0usize;
    for (number, item) in items.iter().enumerate().take(at) {
        if begins_section(item.keyword()) {
            head = number;
        }
    }
    head
}

/// Leaves out the other lines of a section that declare a name, since one of them is: what is left of it would mean
/// something else.
fn leave_out_acl(
    alloc: Global,
    items: &mut [Item],
    at: usize,
    name: &str,
) -> Result<(), AllocError> {
    let head = head_of(items, at);
    for item in items.iter_mut().skip(head.saturating_add(1)) {
        if begins_section(item.keyword()) {
            break;
        }
        if item.keyword() == "acl" && item.name() == name {
            let said = format!(in alloc; "another line of the acl {name} is left out")?;
            item.leave_out(said, Concern::Clients)?;
        }
    }
    Ok(())
}

/// What the counts begin with that a line tracks by, if it is a line that tracks.
fn counter_of(code: &str) -> Option<&'static str> {
    let mut words = code.split_ascii_whitespace();
    if words.next() != Some("tcp-request") {
        return None;
    }
    match words.nth(1).unwrap_or("") {
        "track-sc0" => Some("sc0_"),
        "track-sc1" => Some("sc1_"),
        "track-sc2" => Some("sc2_"),
        _ => None,
    }
}

/// Whether a line looks at what that counter tracks.
fn looks_at(code: &str, counter: &str) -> bool {
    code.split_ascii_whitespace()
        .any(|word| word.starts_with(counter))
}

/// Leaves out the lines of a section that look at a counter, since a line that tracks by it is left out: without a count
/// they would mean something else.
fn leave_out_counted(
    alloc: Global,
    items: &mut [Item],
    at: usize,
    counter: &str,
) -> Result<(), AllocError> {
    let head = head_of(items, at);
    let mut names = Vec::new(alloc);
    for item in items.iter_mut().skip(head.saturating_add(1)) {
        if begins_section(item.keyword()) {
            break;
        }
        if looks_at(item.code.as_str(), counter) {
            if item.keyword() == "acl" {
                names.push(String::from_str(alloc, item.name())?)?;
            }
            let said = format!(in alloc; "a line that tracks what {counter} counts is left out")?;
            item.leave_out(said, Concern::Clients)?;
        }
    }
    for name in &names {
        leave_out_acl(alloc, items, at, name.as_str())?;
    }
    Ok(())
}

/// Leaves out the line of that number. With the line that begins a section its lines go too, except that `defaults`
/// stays without them, so that those below take nothing from an earlier one.
fn leave_out(
    alloc: Global,
    items: &mut [Item],
    at: usize,
    verdict: LineVerdict,
) -> Result<(), AllocError> {
    let LineVerdict { said, concern, .. } = verdict;
    let Some(item) = items.get_mut(at) else {
        return Ok(());
    };
    let keyword = String::from_str(alloc, item.keyword())?;
    let name = String::from_str(alloc, item.name())?;
    let counter = counter_of(item.code.as_str());
    if keyword.as_str() == "defaults" && item.code.as_str() != "defaults" {
        item.code = String::from_str(alloc, "defaults")?;
        item.concern = Concern::Clients;
        item.notes.push(said)?;
        return Ok(());
    }
    item.leave_out(said, concern)?;
    if let Some(counter) = counter {
        return leave_out_counted(alloc, items, at, counter);
    }
    match keyword.as_str() {
        "acl" => leave_out_acl(alloc, items, at, name.as_str()),
        word => {
            if begins_section(word) {
                leave_out_rest(items, at);
            }
            Ok(())
        }
    }
}

/// Leaves out what is refused, line by line, until the rest is accepted or no line is at fault.
pub fn settle(alloc: Global, items: &mut [Item]) -> Result<(), AllocError> {
    for _ in 0..MOST_READINGS {
        let draft = text_of(alloc, items)?;
        let fault = match read_plan(alloc, draft.text.as_str()) {
            Ok(_plan) => return Ok(()),
            Err(OpenFault::NoMemory) => return Err(AllocError),
            Err(fault) => fault,
        };
        let verdict = verdict_on(alloc, draft.text.as_str(), &fault)?;
        let before = (verdict.line as usize).checked_sub(1);
        let Some(at) = before.and_then(|before| draft.items.as_slice().get(before).copied()) else {
            return Ok(());
        };
        leave_out(alloc, items, at, verdict)?;
    }
    Ok(())
}
