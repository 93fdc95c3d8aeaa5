//! What the commands over files share: messages and files.
use command_line::DEVICE;
use conn_core::OpenFault;
use refusal_text::{further_refusals, refusal};
use std::fs;
use std::rt::Files;

/// Says why a configuration is refused: its first fault, and further faulty lines. If memory runs out, the line and the
/// first fault's name are said alone, or the further lines are left out.
pub fn explain_refusal(
    rt: &(impl AllocGlobal + Eprint),
    file: &str,
    text: &str,
    fault: &OpenFault,
) {
    let _written = match refusal(rt.alloc(), file, text, fault) {
        Ok(message) => eprintln!(rt; "{message}"),
        Err(_) => eprintln!(rt; "{file}: {fault}"),
    };
    if let Ok(further) = further_refusals(rt.alloc(), file, text, fault) {
        if !further.is_empty() {
            let _written = eprintln!(rt; "{further}");
        }
    }
}

/// Says what cannot be read.
pub fn unreadable(rt: &impl Eprint, what: &str) -> u8 {
    let _written = eprintln!(rt; "l4proxy: {what}: cannot be read");
    DEVICE
}

/// Opens what can be read. A directory can be opened, and not read.
pub fn open_script<R: Files>(rt: &R, script: &str) -> Option<R::File> {
    let kind = fs::metadata(rt, script).ok()?;
    if kind.is_dir() {
        return None;
    }
    fs::open(rt, script).ok()
}
