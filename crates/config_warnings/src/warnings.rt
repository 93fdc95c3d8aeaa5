//! What a configuration that is right lacks, and what it has without effect.
use crate::tables::{is_read, is_tracked};
use crate::uses::{UsedAcls, always_applies};
use plan_types::{Action, Backend, Frontend, Plan, Rule, Section, Table};
use std::alloc::{AllocError, Global};

/// What is said of a line.
#[derive(Drop)]
pub struct Warning {
    pub line: u32,
    pub said: String,
}

/// The warnings so far.
#[derive(Drop)]
struct Warnings {
    alloc: Global,
    all: Vec<Warning>,
}

impl Warnings {
    fn add(&mut self, line: u32, said: String) -> Result<(), AllocError> {
        self.all.push(Warning { line, said })?;
        Ok(())
    }
}

/// A name as text. Names have ASCII characters only.
fn written(name: &[u8]) -> &str {
    std::str::from_utf8(name).unwrap_or("")
}

/// The first two words of a line.
fn two_words(line: &str) -> (&str, &str) {
    let code = match line.split_once('#') {
        Some((code, _comment)) => code,
        None => line,
    };
    let mut words = code.split_ascii_whitespace();
    let first = words.next().unwrap_or("");
    (first, words.next().unwrap_or(""))
}

/// The first line with that keyword, and that name if there is one, in the section whose first line is `head`.
fn line_in_section(text: &str, head: u32, keyword: &str, name: &str) -> u32 {
    let mut number = 0u32;
    for line in text.lines() {
        number = number.saturating_add(1);
        let (first, second) = two_words(line);
        if number > head {
            if matches!(first, "global" | "defaults" | "frontend" | "backend") {
                break;
            }
            if first == keyword && (name.is_empty() || second == name) {
                return number;
            }
        }
    }
    head
}

/// A time of 0 is none.
fn add_client_timeout(warnings: &mut Warnings, frontend: &Frontend) -> Result<(), AllocError> {
    if frontend.client_timeout != 0 {
        return Ok(());
    }
    let name = written(frontend.name.as_slice());
    let said = format!(in warnings.alloc;
        "frontend {name} has no timeout client, so a silent client stays connected"
    )?;
    warnings.add(frontend.line, said)
}

/// A frontend that may have no backend for a connection.
fn add_default(warnings: &mut Warnings, frontend: &Frontend) -> Result<(), AllocError> {
    let mut choices = frontend.choices.as_slice().iter();
    if frontend.default.is_some() || choices.any(|choice| always_applies(&choice.when)) {
        return Ok(());
    }
    let name = written(frontend.name.as_slice());
    let which = if frontend.choices.is_empty() {
        "no default_backend and no use_backend, so every connection is refused"
    } else {
        "no default_backend, so a connection for which no use_backend line applies is refused"
    };
    let said = format!(in warnings.alloc; "frontend {name} has {which}")?;
    warnings.add(frontend.line, said)
}

/// Whether a rule ends its list for every connection.
fn always_decides(rule: &Rule) -> bool {
    match rule.action {
        Action::Accept | Action::Reject => always_applies(&rule.when),
        Action::Track(..) | Action::ExpectProxy => false,
    }
}

/// The rules behind one that always decides.
fn add_rules(warnings: &mut Warnings, rules: &[Rule]) -> Result<(), AllocError> {
    let mut end = None;
    for rule in rules {
        match end {
            None if always_decides(rule) => end = Some(rule.line),
            None => {}
            Some(line) => {
                let said = format!(in warnings.alloc;
                    "this rule is never tried, since that of line {line} decides for every connection"
                )?;
                warnings.add(rule.line, said)?;
            }
        }
    }
    Ok(())
}

/// The `use_backend` lines behind one that always applies.
fn add_choices(warnings: &mut Warnings, frontend: &Frontend) -> Result<(), AllocError> {
    let mut end = None;
    for choice in frontend.choices.as_slice() {
        match end {
            None if always_applies(&choice.when) => end = Some(choice.line),
            None => {}
            Some(line) => {
                let said = format!(in warnings.alloc;
                    "this line is never tried, since that of line {line} applies to every connection"
                )?;
                warnings.add(choice.line, said)?;
            }
        }
    }
    Ok(())
}

/// The names that no condition asks for.
fn add_acls(warnings: &mut Warnings, text: &str, frontend: &Frontend) -> Result<(), AllocError> {
    let used = UsedAcls::of(warnings.alloc, frontend)?;
    for (number, acl) in frontend.acls.as_slice().iter().enumerate() {
        if !used.has(number) {
            let name = written(acl.name.as_slice());
            let line = line_in_section(text, frontend.line, "acl", name);
            let said = format!(in warnings.alloc;
                "the acl {name} is in no condition, so it has no effect"
            )?;
            warnings.add(line, said)?;
        }
    }
    Ok(())
}

fn add_frontend(
    warnings: &mut Warnings,
    text: &str,
    frontend: &Frontend,
) -> Result<(), AllocError> {
    add_client_timeout(warnings, frontend)?;
    add_default(warnings, frontend)?;
    add_rules(warnings, frontend.connection_rules.as_slice())?;
    add_rules(warnings, frontend.session_rules.as_slice())?;
    add_choices(warnings, frontend)?;
    add_acls(warnings, text, frontend)
}

/// What a backend lacks, and what that means, if it lacks a time. A time of 0 is none.
fn lack_of(backend: &Backend) -> Option<&'static str> {
    match (backend.connect_timeout == 0, backend.server_timeout == 0) {
        (true, true) => Some(
            "no timeout connect and no timeout server, so a server that does not accept is waited for as long as the kernel tries, and a silent server stays connected",
        ),
        (true, false) => Some(
            "no timeout connect, so a server that does not accept is waited for as long as the kernel tries",
        ),
        (false, true) => Some("no timeout server, so a silent server stays connected"),
        (false, false) => None,
    }
}

/// Whether a frontend leads to the backend of that number.
fn is_led_to(plan: &Plan, number: usize) -> bool {
    plan.frontends.as_slice().iter().any(|frontend| {
        let is_default = match frontend.default {
            Some(backend) => usize::from(backend) == number,
            None => false,
        };
        let mut choices = frontend.choices.as_slice().iter();
        is_default || choices.any(|choice| usize::from(choice.backend) == number)
    })
}

/// Whether a backend has a table.
fn has_table(plan: &Plan, backend: &Backend) -> bool {
    plan.tables.as_slice().iter().any(|table| {
        table.section == Section::Backend && table.name.as_slice() == backend.name.as_slice()
    })
}

/// The times that a backend lacks, and its servers, unless it is there for its table alone.
fn add_backend(
    warnings: &mut Warnings,
    plan: &Plan,
    number: usize,
    backend: &Backend,
) -> Result<(), AllocError> {
    let name = written(backend.name.as_slice());
    if let Some(lack) = lack_of(backend) {
        let said = format!(in warnings.alloc; "backend {name} has {lack}")?;
        warnings.add(backend.line, said)?;
    }
    if backend.servers.is_empty() && (is_led_to(plan, number) || !has_table(plan, backend)) {
        let said = format!(in warnings.alloc;
            "backend {name} has no server, so a connection that it is chosen for is refused"
        )?;
        warnings.add(backend.line, said)?;
    }
    Ok(())
}

/// The first line of the section of a table.
fn head_of(plan: &Plan, table: &Table) -> u32 {
    let name = table.name.as_slice();
    match table.section {
        Section::Frontend => {
            let mut frontends = plan.frontends.as_slice().iter();
            frontends
                .find(|frontend| frontend.name.as_slice() == name)
                .map_or(0, |frontend| frontend.line)
        }
        Section::Backend => {
            let mut backends = plan.backends.as_slice().iter();
            backends
                .find(|backend| backend.name.as_slice() == name)
                .map_or(0, |backend| backend.line)
        }
    }
}

/// Why a table has no effect, if it has none.
fn idleness_of(plan: &Plan, table: &Table, number: usize) -> Option<&'static str> {
    if !is_tracked(plan, number) {
        Some("no rule tracks in the table of")
    } else if !is_read(plan, table, number) {
        Some("no test looks at the table of")
    } else {
        None
    }
}

/// The tables in which no rule tracks, and those at which no test looks.
fn add_tables(warnings: &mut Warnings, text: &str, plan: &Plan) -> Result<(), AllocError> {
    for (number, table) in plan.tables.as_slice().iter().enumerate() {
        if let Some(why) = idleness_of(plan, table, number) {
            let line = line_in_section(text, head_of(plan, table), "stick-table", "");
            let name = written(table.name.as_slice());
            let said = format!(in warnings.alloc; "{why} {name}, so it limits nobody")?;
            warnings.add(line, said)?;
        }
    }
    Ok(())
}

/// The warnings of a plan, in the order of the lines of the text that means it.
pub fn warnings_of(alloc: Global, text: &str, plan: &Plan) -> Result<Vec<Warning>, AllocError> {
    let mut warnings = Warnings {
        alloc,
        all: Vec::new(alloc),
    };
    for frontend in plan.frontends.as_slice() {
        add_frontend(&mut warnings, text, frontend)?;
    }
    for (number, backend) in plan.backends.as_slice().iter().enumerate() {
        add_backend(&mut warnings, plan, number, backend)?;
    }
    add_tables(&mut warnings, text, plan)?;
    let Warnings { mut all, .. } = warnings;
    all.sort_by_key(|warning| warning.line)?;
    Ok(all)
}
