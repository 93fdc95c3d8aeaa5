//! Reading the lines of a configuration.
ghost use Rattle.std.specs.Prelude.{◌≡◌, ◌⊎◌, ◌++◌, ◌∷◌, [], false, length, filter, IfOk, IfErr, OnOk, List, Result, Ok, Err};
ghost use Rattle.std.specs.List.{list_any};
ghost use Rattle.list_core.specs.Each.{Fails, Gives, each};
ghost use Rattle.conf_text.specs.Lines.{lines_of, AreLines};
ghost use Rattle.conf_line.specs.declared.fault.ConfFault.{ConfFault};
ghost use Rattle.conf_tree.specs.declared.tree.ConfigLine.{ConfigLine};
ghost use Rattle.conf_tree.specs.Kept.{IsNext};
ghost use Rattle.conf_tree.specs.Config.{outside, place_after, place_of, section_lines, claim_of, is_server_named, has_server, is_taken, is_bind, is_acl, is_rule, is_server, lines_reach, is_full, check_line, line_after, item_after, text_fault, has_effect, with_effect, items_in, items_of, AreItems, IsConfFault, no_memory};

use crate::claim::claim_of;
use crate::kept::Kept;
use crate::limits::{MOST_ACLS, MOST_RULES};
use crate::tree::{ConfigLine, SectionPlace, Tree};
use conf_line::{ConfFault, ConfKind, LineReading, SectionKind, Statement, read_line};
use conf_text::{Line, LineKind, Lines};
use list_core::{Stop, newest};
use proxy_types::{MOST_BINDS, MOST_SECTIONS, MOST_SERVERS};
use std::alloc::{AllocError, Global};
use text_core::Word;

/// Before any section.
fn outside<'a>() -> SectionPlace<'a>
    ensures { result ≡ outside }
{
    SectionPlace {
        kind: SectionKind::Outside,
        name: Word::of(&[]),
        first: 0,
    }
}

fn again<'a>(place: &SectionPlace<'a>) -> SectionPlace<'a>
    ensures { result ≡ place.now }
{
    SectionPlace {
        kind: place.kind,
        name: place.name.again(),
        first: place.first,
    }
}

/// The section of the line after those, if it opens none.
fn place_after<'a>(items: &[ConfigLine<'a>]) -> SectionPlace<'a>
    ensures { result ≡ place_after items.now }
{
    match newest(items) {
        Some(item) => again(&item.place),
        None => outside(),
    }
}

/// The section of a line that says this, as the item of that number.
fn place_of<'a>(
    place: SectionPlace<'a>,
    number: usize,
    statement: &Statement<'a>,
) -> SectionPlace<'a>
    ensures { result ≡ place_of place.entry number statement.now }
{
    match statement {
        Statement::Global => SectionPlace {
            kind: SectionKind::Global,
            name: Word::of(&[]),
            first: number,
        },
        Statement::Defaults => SectionPlace {
            kind: SectionKind::Defaults,
            name: Word::of(&[]),
            first: number,
        },
        Statement::Frontend(name) => SectionPlace {
            kind: SectionKind::Frontend,
            name: name.again(),
            first: number,
        },
        Statement::Backend(name) => SectionPlace {
            kind: SectionKind::Backend,
            name: name.again(),
            first: number,
        },
        _ => place,
    }
}

/// The lines of a section, of all those before.
fn section_lines<'t, 'a>(place: &SectionPlace, items: &'t [ConfigLine<'a>]) -> &'t [ConfigLine<'a>]
    ensures { result.now ≡ section_lines place.now items.now }
{
    if place.first < items.len() {
        return &items[place.first..];
    }
    &[]
}

fn is_server_named(name: &Word, statement: &Statement) -> bool
    ensures { result ≡ is_server_named name.now statement.now }
{
    match statement {
        Statement::Server(server) => server.name.is(name.bytes()),
        _ => false,
    }
}

fn is_any_server_named(lines: &[ConfigLine], name: &Word) -> bool
    ensures { result ≡ list_any (λ item. is_server_named name.now item.statement) lines.now }
{
    lines
        .iter()
        .any(|item| is_server_named(name, &item.statement))
}

fn has_server(lines: &[ConfigLine], statement: &Statement) -> bool
    ensures { result ≡ has_server lines.now statement.now }
{
    match statement {
        Statement::Server(server) => is_any_server_named(lines, &server.name),
        _ => false,
    }
}

fn is_bind(statement: &Statement) -> bool
    ensures { result ≡ is_bind statement.now }
{
    matches!(statement, Statement::Bind(_, _))
}

fn is_acl(statement: &Statement) -> bool
    ensures { result ≡ is_acl statement.now }
{
    matches!(statement, Statement::Acl(_, _))
}

fn is_rule(statement: &Statement) -> bool
    ensures { result ≡ is_rule statement.now }
{
    matches!(
        statement,
        Statement::Rule(_, _, _) | Statement::UseBackend(_, _)
    )
}

fn is_server(statement: &Statement) -> bool
    ensures { result ≡ is_server statement.now }
{
    matches!(statement, Statement::Server(_))
}

fn bind_count(lines: &[ConfigLine]) -> usize
    ensures { result ≡ length (filter (λ item. is_bind item.statement) lines.now) }
{
    lines.iter().filter(|item| is_bind(&item.statement)).count()
}

fn acl_count(lines: &[ConfigLine]) -> usize
    ensures { result ≡ length (filter (λ item. is_acl item.statement) lines.now) }
{
    lines.iter().filter(|item| is_acl(&item.statement)).count()
}

fn rule_count(lines: &[ConfigLine]) -> usize
    ensures { result ≡ length (filter (λ item. is_rule item.statement) lines.now) }
{
    lines.iter().filter(|item| is_rule(&item.statement)).count()
}

/// Whether there are as many `acl` lines as there may be. Short sections need no look at their lines.
fn are_acls(lines: &[ConfigLine]) -> bool
    ensures { result ≡ lines_reach MOST_ACLS is_acl lines.now }
{
    if lines.len() < MOST_ACLS {
        return false;
    }
    acl_count(lines) >= MOST_ACLS
}

/// Whether there are as many rules as there may be. Short sections need no look at their lines.
fn are_rules(lines: &[ConfigLine]) -> bool
    ensures { result ≡ lines_reach MOST_RULES is_rule lines.now }
{
    if lines.len() < MOST_RULES {
        return false;
    }
    rule_count(lines) >= MOST_RULES
}

fn server_count(lines: &[ConfigLine]) -> usize
    ensures { result ≡ length (filter (λ item. is_server item.statement) lines.now) }
{
    lines
        .iter()
        .filter(|item| is_server(&item.statement))
        .count()
}

/// Whether there are as many servers as there may be. Short sections need no look at their lines.
fn are_servers(lines: &[ConfigLine]) -> bool
    ensures { result ≡ lines_reach MOST_SERVERS is_server lines.now }
{
    if lines.len() < MOST_SERVERS {
        return false;
    }
    server_count(lines) >= MOST_SERVERS
}

/// Whether an earlier line has what may be given once.
fn is_taken(kept: &Kept, place: &SectionPlace, statement: &Statement) -> bool
    ensures { result ≡ is_taken kept.now place.now statement.now }
{
    let claim = claim_of(place, statement);
    kept.claims().has(&claim) || has_server(section_lines(place, kept.items()), statement)
}

/// Whether one line more of the kind is too many.
fn is_full(kept: &Kept, place: &SectionPlace, statement: &Statement) -> bool
    ensures { result ≡ is_full kept.now place.now statement.now }
{
    let items = kept.items();
    match statement {
        Statement::Frontend(_) => kept.claims().frontends() >= MOST_SECTIONS,
        Statement::Backend(_) => kept.claims().backends() >= MOST_SECTIONS,
        Statement::Bind(_, _) => bind_count(section_lines(place, items)) >= MOST_BINDS,
        Statement::Acl(_, _) => are_acls(section_lines(place, items)),
        Statement::Rule(_, _, _) | Statement::UseBackend(_, _) => {
            are_rules(section_lines(place, items))
        }
        Statement::Server(_) => are_servers(section_lines(place, items)),
        _ => false,
    }
}

/// Whether a line that says this may come after those.
fn check_line(kept: &Kept, place: &SectionPlace, reading: &LineReading) -> Result<(), ConfKind>
    ensures value { result ≡ check_line kept.now place.now reading.now }
    ensures fits { OnOk result (reading.now.exceeds ≡ false) }
    ensures free { OnOk result (is_taken kept.now place.now reading.now.statement ≡ false) }
    ensures room { OnOk result (is_full kept.now place.now reading.now.statement ≡ false) }
{
    if reading.repeats || is_taken(kept, place, &reading.statement) {
        return Err(ConfKind::Duplicate);
    }
    if reading.exceeds || is_full(kept, place, &reading.statement) {
        return Err(ConfKind::Limit);
    }
    Ok(())
}

/// What the line after those says.
fn read_line_after<'a>(
    alloc: Global,
    kept: &Kept<'a>,
    line: &Line<'a>,
) -> Result<ConfigLine<'a>, Stop<ConfKind>>
    ensures gives { Gives result (line_after kept.now line.now) }
    ensures next { IfOk result (IsNext kept.now) }
{
    let before = place_after(kept.items());
    let reading = read_line(alloc, before.kind, kept.known(), line.words.as_slice())?;
    let place = place_of(before, kept.items().len(), &reading.statement);
    let check = check_line(kept, &place, &reading);
    let item = ConfigLine {
        line: line.number,
        place,
        statement: reading.statement,
    };
    match check {
        Ok(()) => Ok(item),
        Err(kind) => {
            drop(item);
            Err(Stop::Fault(kind))
        }
    }
}

/// The item of the line after those.
fn item_after<'a>(
    alloc: Global,
    kept: &Kept<'a>,
    line: &Line<'a>,
) -> Result<ConfigLine<'a>, Stop<ConfFault>>
    ensures gives { Gives result (item_after kept.now line.now) }
    ensures next { IfOk result (IsNext kept.now) }
{
    match read_line_after(alloc, kept, line) {
        Ok(item) => Ok(item),
        Err(Stop::Memory) => Err(Stop::Memory),
        Err(Stop::Fault(kind)) => Err(Stop::Fault(ConfFault {
            line: line.number,
            kind,
        })),
    }
}

fn lines(alloc: Global, text: &str) -> Result<Lines, Stop<ConfFault>>
    ensures gives { Gives result (text_fault (lines_of text.now)) }
    ensures lines { IfOk result (λ lines. AreLines text.now lines) }
{
    match Lines::of(alloc, text) {
        Ok(lines) => Ok(lines),
        Err(fault) => {
            if matches!(fault.kind, LineKind::NoMemory) {
                return Err(Stop::Memory);
            }
            Err(Stop::Fault(ConfFault {
                line: fault.line,
                kind: ConfKind::Text(fault.kind),
            }))
        }
    }
}

fn has_effect(statement: &Statement) -> bool
    ensures { result ≡ has_effect statement.now }
{
    !matches!(statement, Statement::Nothing)
}

/// Those, and the item if its line has an effect. Most lines of a long text may have none.
fn kept_with<'a>(
    alloc: Global,
    kept: Kept<'a>,
    item: ConfigLine<'a>,
) -> Result<Kept<'a>, AllocError>
    requires { IsNext kept item }
    ensures { IfOk result (λ more. more ≡ kept.entry ++ with_effect (item.entry ∷ [])) }
{
    if has_effect(&item.statement) {
        return kept.with(alloc, item);
    }
    drop(item);
    Ok(kept)
}

/// The items of the lines that have an effect.
fn kept_items<'a>(alloc: Global, lines: &[Line<'a>]) -> Result<Kept<'a>, Stop<ConfFault>>
    ensures { Gives result (items_in lines.now) }
{
    let mut kept = Kept::new(alloc);
    for line in lines {
        let item = item_after(alloc, &kept, line)?;
        kept = kept_with(alloc, kept, item)?;
    }
    Ok(kept)
}

fn tree_in(alloc: Global, text: &str) -> Result<Tree, Stop<ConfFault>>
    ensures { Gives result (items_of text.now) }
{
    let lines = lines(alloc, text)?;
    let kept = kept_items(alloc, lines.as_slice())?;
    Ok(Tree::of(kept.into_items()))
}

/// The fault of a stop; want of memory is on line 0.
fn fault_of(stop: Stop<ConfFault>) -> ConfFault
    ensures { (read : Result (List ConfigLine) ConfFault) → Fails stop read → (result ≡ no_memory) ⊎ (read ≡ Err result) }
{
    match stop {
        Stop::Fault(fault) => fault,
        Stop::Memory => ConfFault {
            line: 0,
            kind: ConfKind::NoMemory,
        },
    }
}

/// What the lines of a text say that have an effect, or the fault of the first faulty line. Want of
/// memory is `NoMemory` on line 0.
pub fn read_config(alloc: Global, text: &str) -> Result<Tree, ConfFault>
    ensures ok { IfOk result (λ tree. items_of text.now ≡ Ok tree) }
    ensures fault { IfErr result (λ f. (f ≡ no_memory) ⊎ (items_of text.now ≡ Err f)) }

    // So each line says what it says in the light of those before it, and the fault is that of the
    // text, or else of the first line that has one.
    ensures each_line { IfOk result (λ tree. AreItems text.now tree) }
    ensures first_fault { IfErr result (λ f. (f ≡ no_memory) ⊎ IsConfFault text.now f) }
{
    match tree_in(alloc, text) {
        Ok(tree) => Ok(tree),
        Err(stop) => Err(fault_of(stop)),
    }
}
