//! Lines of the configuration as they are written, and what conditions ask for.
ghost use Rattle.std.specs.Prelude.{◌≡◌, ◌++◌, ◌∷◌, ◌==◌, [], codes, find, map, slice_get, IfOk, OnOk, if◌then◌else◌};
ghost use Rattle.std.specs.List.{list_any};
ghost use Rattle.std.specs.Option.{option_copied};
ghost use Rattle.std.specs.Str.{bytes_eq};
ghost use Rattle.text_core.specs.Decimal.{decimal};
ghost use Rattle.addr_core.specs.Text.{text_of};
ghost use Rattle.event_text.specs.Script.{ended_lines};
ghost use Rattle.explain_core.specs.Text.{asked_by, asked_by_acl, asked_in, asked_in_group, criterion_line, criterion_text, line_text, named_text, once, seen_text, table_name, value_text, words_text};

use acl_core::{Acl, Cond, Criterion, Operand, Term, Value, View, When};
use addr_core::{Addr, write_addr};
use conf_text::{Line, Lines};
use list_core::Seq;
use plan_types::Table;
use std::alloc::{AllocError, Global};
use text_core::Word;
use text_core::decimal::append_decimal;

/// Appends words with a space before each.
fn write_words(out: &mut Vec<u8>, words: &[Word<'_>]) -> Result<(), AllocError>
    ensures { OnOk result (out.new.items ≡ out.old.items ++ words_text words.now) }
{
    for word in words {
        out.extend_from_slice(b" ")?;
        out.extend_from_slice(word.bytes())?;
    }
    Ok(())
}

/// The line of that number.
fn line_at<'l, 'a>(lines: &'l [Line<'a>], number: u32) -> Option<&'l Line<'a>>
    ensures { option_copied result ≡ find (λ line. line.number == number) lines.now }
{
    lines.iter().find(|line| line.number == number)
}

/// Appends the words of a line with one space between them, without its comment.
pub fn write_line(out: &mut Vec<u8>, lines: &Lines<'_>, number: u32) -> Result<(), AllocError>
    ensures { OnOk result (out.new.items ≡ out.old.items ++ line_text lines.now number) }
{
    out.extend_from_slice(b"line ")?;
    append_decimal(out, u64::from(number))?;
    match line_at(lines.as_slice(), number) {
        Some(line) => write_words(out, line.words.as_slice()),
        None => Ok(()),
    }
}

pub fn write_addr_text(out: &mut Vec<u8>, addr: &Addr) -> Result<(), AllocError>
    ensures { OnOk result (out.new.items ≡ out.old.items ++ text_of addr.now) }
{
    out.extend_from_slice(write_addr(addr).as_str().as_bytes())
}

/// Appends the name of a table.
pub fn write_table(out: &mut Vec<u8>, tables: &[Table], number: u16) -> Result<(), AllocError>
    ensures { OnOk result (out.new.items ≡ out.old.items ++ table_name tables.now number) }
{
    match item(tables, usize::from(number)) {
        Some(table) => out.extend_from_slice(table.name.as_slice()),
        None => Ok(()),
    }
}

/// Appends a word, with the name after it that it has, if it has one.
fn write_named(out: &mut Vec<u8>, word: &[u8], name: &Option<Seq<u8>>) -> Result<(), AllocError>
    ensures { OnOk result (out.new.items ≡ out.old.items ++ named_text word.now name.now) }
{
    match name {
        Some(name) => write_with_name(out, word, name.as_slice()),
        None => out.extend_from_slice(word),
    }
}

fn write_with_name(out: &mut Vec<u8>, word: &[u8], name: &[u8]) -> Result<(), AllocError>
    ensures { OnOk result (out.new.items
        ≡ out.old.items ++ (word.now ++ codes "(" ++ name.now ++ codes ")")) }
{
    out.extend_from_slice(word)?;
    out.extend_from_slice(b"(")?;
    out.extend_from_slice(name)?;
    out.extend_from_slice(b")")
}

fn write_tracked(out: &mut Vec<u8>, counter: u8, word: &[u8]) -> Result<(), AllocError>
    ensures { OnOk result (out.new.items
        ≡ out.old.items ++ (codes "sc" ++ decimal counter ++ word.now)) }
{
    out.extend_from_slice(b"sc")?;
    append_decimal(out, u64::from(counter))?;
    out.extend_from_slice(word)
}

/// Appends a criterion as a configuration has it.
fn write_criterion(out: &mut Vec<u8>, criterion: &Criterion) -> Result<(), AllocError>
    ensures { OnOk result (out.new.items ≡ out.old.items ++ criterion_text criterion.now) }
{
    match criterion {
        Criterion::Source => out.extend_from_slice(b"src"),
        Criterion::TrackedConnections(counter) => write_tracked(out, *counter, b"_conn_cur"),
        Criterion::TrackedTotal(counter) => write_tracked(out, *counter, b"_conn_cnt"),
        Criterion::SourceConnections(name) => write_named(out, b"src_conn_cur", name),
        Criterion::SourceTotal(name) => write_named(out, b"src_conn_cnt", name),
        Criterion::FrontendConnections(name) => write_named(out, b"fe_conn", name),
        Criterion::BackendConnections(name) => write_with_name(out, b"be_conn", name.as_slice()),
    }
}

fn write_value(out: &mut Vec<u8>, value: &Value) -> Result<(), AllocError>
    ensures { OnOk result (out.new.items ≡ out.old.items ++ value_text value.now) }
{
    match value {
        Value::Absent => out.extend_from_slice(b"none"),
        Value::Number(number) => append_decimal(out, *number),
        Value::Source(addr) => write_addr_text(out, addr),
    }
}

/// The item of that number.
pub fn item<T>(items: &[T], number: usize) -> Option<&T>
    ensures { option_copied result ≡ slice_get items.now number }
{
    items.get(number)
}

/// What sees the criteria of conditions.
#[derive(Drop)]
struct Quoter<'v, V> {
    alloc: Global,
    view: &'v V,
}

impl<'v, V: View> Quoter<'v, V> {
    /// A criterion with its value.
    fn criterion_line(&self, criterion: &Criterion) -> Result<Seq<u8>, AllocError>
        ensures { IfOk result (λ line. line
            ≡ criterion_line (V.worth self.now.view.now) criterion.now) }
    {
        let mut line = Vec::new(self.alloc);
        line.extend_from_slice(b"  ")?;
        write_criterion(&mut line, criterion)?;
        line.extend_from_slice(b" ")?;
        write_value(&mut line, &self.view.value(criterion))?;
        Ok(Seq::of(line))
    }

    /// Adds the line of a criterion.
    fn push(&self, lines: &mut Vec<Seq<u8>>, criterion: &Criterion) -> Result<(), AllocError>
        ensures { OnOk result (lines.new.items
            ≡ lines.old.items ++ criterion_line (V.worth self.now.view.now) criterion.now ∷ []) }
    {
        let line = self.criterion_line(criterion)?;
        lines.push(line)?;
        Ok(())
    }

    /// Adds a line for each test of a name.
    fn push_acl(&self, lines: &mut Vec<Seq<u8>>, acl: &Acl) -> Result<(), AllocError>
        ensures { OnOk result (lines.new.items ≡ lines.old.items
            ++ map (criterion_line (V.worth self.now.view.now)) (asked_by_acl acl.now)) }
    {
        for test in acl.tests.as_slice() {
            self.push(lines, test.criterion())?;
        }
        Ok(())
    }

    /// Adds a line for each criterion that an operand asks for.
    fn push_operand(&self, lines: &mut Vec<Seq<u8>>, operand: &Operand) -> Result<(), AllocError>
        ensures { OnOk result (lines.new.items ≡ lines.old.items
            ++ map (criterion_line (V.worth self.now.view.now))
            (asked_by (V.acls self.now.view.now) operand.now)) }
    {
        match operand {
            Operand::Constant(_) => Ok(()),
            Operand::Test(test) => self.push(lines, test.criterion()),
            Operand::Acl(number) => match item(self.view.acls(), *number) {
                Some(acl) => self.push_acl(lines, acl),
                None => Ok(()),
            },
        }
    }

    /// Adds a line for each criterion that a group of terms asks for.
    fn push_group(&self, lines: &mut Vec<Seq<u8>>, group: &[Term]) -> Result<(), AllocError>
        ensures { OnOk result (lines.new.items ≡ lines.old.items
            ++ map (criterion_line (V.worth self.now.view.now))
            (asked_in_group (V.acls self.now.view.now) group.now)) }
    {
        for term in group {
            self.push_operand(lines, &term.operand)?;
        }
        Ok(())
    }
}

/// A line for each criterion that a condition asks for, in its order.
fn condition_lines<V: View>(
    alloc: Global,
    view: &V,
    condition: &Cond,
) -> Result<Vec<Seq<u8>>, AllocError>
    ensures { IfOk result (λ lines. lines.items
        ≡ map (criterion_line (V.worth view.now)) (asked_in (V.acls view.now) condition.now)) }
{
    let quoter = Quoter { alloc, view };
    let mut lines = Vec::new(alloc);
    for group in condition.groups.as_slice() {
        quoter.push_group(&mut lines, group.as_slice())?;
    }
    Ok(lines)
}

/// Whether that line is among them.
fn has_line(lines: &[Seq<u8>], line: &[u8]) -> bool
    ensures { result ≡ list_any (λ other. bytes_eq other line.now) lines.now }
{
    lines.iter().any(|other| other.as_slice() == line)
}

/// Appends a line with its end, unless it is among those.
fn write_new(out: &mut Vec<u8>, seen: &[Seq<u8>], line: &[u8]) -> Result<(), AllocError>
    ensures { OnOk result (out.new.items ≡ out.old.items
        ++ (if list_any (λ other. bytes_eq other line.now) seen.now then []
        else line.now ++ codes "\n")) }
{
    if has_line(seen, line) {
        return Ok(());
    }
    out.extend_from_slice(line)?;
    out.extend_from_slice(b"\n")
}

/// Appends each line once, where it comes first.
fn write_once(out: &mut Vec<u8>, lines: &[Seq<u8>]) -> Result<(), AllocError>
    ensures { OnOk result (out.new.items ≡ out.old.items ++ ended_lines (once lines.now)) }
{
    for (place, line) in lines.iter().enumerate() {
        write_new(out, &lines[..place], line.as_slice())?;
    }
    Ok(())
}

/// Appends what a condition saw: each criterion that it asks for, once, with its value.
pub fn write_seen<V: View>(
    alloc: Global,
    out: &mut Vec<u8>,
    view: &V,
    when: &When,
) -> Result<(), AllocError>
    ensures { OnOk result (out.new.items
        ≡ out.old.items ++ seen_text (V.acls view.now) (V.worth view.now) when.now) }
{
    match when {
        When::Always => Ok(()),
        When::If(condition) | When::Unless(condition) => {
            let lines = condition_lines(alloc, view, condition)?;
            write_once(out, lines.as_slice())
        }
    }
}
