//! The frontends and backends of a configuration, each with its lines.
ghost use Rattle.std.specs.Prelude.{◌≡◌, ◌<◌, ◌≤◌, [], ◌++◌, length, position, option_to_list, IfOk, IfSome, OnOk};
ghost use Rattle.conf_tree.specs.Few.{FewSections};
ghost use Rattle.conf_tree.specs.Sections.{opens, own_lines};
ghost use Rattle.proxy_types.specs.declared.limits.TheConstants.{MOST_SECTIONS, MOST_TABLES};
ghost use Rattle.plan_core.specs.Proxies.{line_head, base_after, line_proxy, proxies, is_frontend, is_backend, frontends, backends};

use conf_tree::{ConfigLine, Statement};
use list_core::Seq;
use plan_types::Section;
use std::alloc::{AllocError, Global};
use std::marker::Model;
use text_core::Word;

/// Lines of a configuration, which borrow it. Contracts see their list.
#[derive(Drop)]
pub struct SectionLines<'a> {
    items: &'a [ConfigLine<'a>],
}

impl<'a> Model for SectionLines<'a> {
    ghost use Rattle.std.specs.Prelude.{List};
    ghost use Rattle.conf_tree.specs.declared.tree.ConfigLine.{ConfigLine};

    ghost Value = { List ConfigLine };

    ghost view = { λ l. l.items.now };
}

impl<'a> SectionLines<'a> {
    ghost use Rattle.std.specs.Prelude.{◌≡◌};

    pub fn of(items: &'a [ConfigLine<'a>]) -> Self
        ensures { result ≡ items.now }
    {
        SectionLines { items }
    }

    pub fn items(&self) -> &'a [ConfigLine<'a>]
        ensures { result.now ≡ self.now }
    {
        self.items
    }
}

/// The line that opens a frontend or a backend.
#[derive(Drop)]
pub struct SectionHead<'a> {
    pub section: Section,
    pub name: Word<'a>,
    pub line: u32,
}

/// A frontend or a backend.
#[derive(Drop)]
pub struct Proxy<'a> {
    pub head: SectionHead<'a>,
    /// The lines of the section.
    pub own: SectionLines<'a>,
    /// The lines of the `defaults` in force, which count where the section itself says nothing.
    pub base: SectionLines<'a>,
}

fn line_head<'a>(item: &ConfigLine<'a>) -> Option<SectionHead<'a>>
    ensures { result ≡ line_head item.now.line item.now.statement }
{
    match &item.statement {
        Statement::Frontend(name) => Some(SectionHead {
            section: Section::Frontend,
            name: name.again(),
            line: item.line,
        }),
        Statement::Backend(name) => Some(SectionHead {
            section: Section::Backend,
            name: name.again(),
            line: item.line,
        }),
        _ => None,
    }
}

fn opens(statement: &Statement) -> bool
    ensures { result ≡ opens statement.now }
{
    matches!(
        statement,
        Statement::Global | Statement::Defaults | Statement::Frontend(_) | Statement::Backend(_)
    )
}

/// The place of the first item that opens a section.
fn next_section(items: &[ConfigLine]) -> Option<usize>
    ensures value { result ≡ position (λ item. opens item.statement) items.now }
    ensures within { IfSome result (λ end. end < length items.now) }
{
    items.iter().position(|item| opens(&item.statement))
}

/// The lines up to the next section.
fn own_lines<'a>(items: &'a [ConfigLine<'a>]) -> &'a [ConfigLine<'a>]
    ensures { result.now ≡ own_lines items.now }
{
    match next_section(items) {
        Some(end) => &items[..end],
        None => items,
    }
}

/// The lines of the `defaults` in force after an item.
fn base_after<'a>(
    base: &'a [ConfigLine<'a>],
    statement: &Statement,
    after: &'a [ConfigLine<'a>],
) -> &'a [ConfigLine<'a>]
    ensures { result.now ≡ base_after base.now (own_lines after.now) statement.now }
{
    match statement {
        Statement::Defaults => own_lines(after),
        _ => base,
    }
}

/// The frontend or backend that an item opens, with the items after it.
fn line_proxy<'a>(
    base: &'a [ConfigLine<'a>],
    after: &'a [ConfigLine<'a>],
    item: &ConfigLine<'a>,
) -> Option<Proxy<'a>>
    ensures { result ≡ line_proxy base.now (own_lines after.now) item.now }
{
    match line_head(item) {
        Some(head) => Some(Proxy {
            head,
            own: SectionLines::of(own_lines(after)),
            base: SectionLines::of(base),
        }),
        None => None,
    }
}

/// Adds the proxy, if there is one.
fn push_some<'a>(all: &mut Seq<Proxy<'a>>, proxy: Option<Proxy<'a>>) -> Result<(), AllocError>
    ensures { OnOk result (all.new ≡ all.old ++ option_to_list proxy.entry) }
{
    if let Some(proxy) = proxy {
        all.push(proxy)?;
    }
    Ok(())
}

fn all_proxies<'a>(alloc: Global, items: &'a [ConfigLine<'a>]) -> Result<Seq<Proxy<'a>>, AllocError>
    ensures { IfOk result (λ all. all ≡ proxies [] items.now) }
{
    let mut base: &'a [ConfigLine<'a>] = &[];
    let mut all: Seq<Proxy<'a>> = Seq::new(alloc);
    let mut rest: &'a [ConfigLine<'a>] = items;
    while let [item, after @ ..] = rest {
        push_some(&mut all, line_proxy(base, after, item))?;
        base = base_after(base, &item.statement, after);
        rest = after;
    }
    Ok(all)
}

/// The frontends and backends of a configuration, in their order.
pub fn proxies_in<'a>(
    alloc: Global,
    items: &'a [ConfigLine<'a>],
) -> Result<Seq<Proxy<'a>>, AllocError>
    requires { FewSections items.now }
    ensures value { IfOk result (λ all. all ≡ proxies [] items.now) }
    ensures frontends { IfOk result (λ all. length (frontends all) ≤ MOST_SECTIONS) }
    ensures backends { IfOk result (λ all. length (backends all) ≤ MOST_SECTIONS) }
    ensures both { IfOk result (λ all. length all ≤ MOST_TABLES) }
{
    let all = all_proxies(alloc, items)?;
    Ok(all)
}

pub fn is_frontend(proxy: &Proxy) -> bool
    ensures { result ≡ is_frontend proxy.now }
{
    matches!(proxy.head.section, Section::Frontend)
}

pub fn is_backend(proxy: &Proxy) -> bool
    ensures { result ≡ is_backend proxy.now }
{
    matches!(proxy.head.section, Section::Backend)
}
