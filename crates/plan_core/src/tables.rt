//! Stick tables, their numbers, and the rules that track in them.
ghost use Rattle.std.specs.Prelude.{◌≡◌, ◌<◌, ◌≤◌, length, position, IfOk, IfSome};
ghost use Rattle.std.specs.Option.{option_map, option_copied};
ghost use Rattle.std.specs.Str.{bytes_eq};
ghost use Rattle.plan_core.specs.Fields.{table_in, tables_in, is_table_of, table_number, stores_meant, action_of, is_in, line_rule, all_of};

use crate::fields::last_table;
use crate::proxies::Proxy;
use conf_tree::{ConfigLine, Ruleset, Statement};
use list_core::{Duplicate, Seq};
use plan_types::{Action, Rule, Section, Stores, Table};
use std::alloc::{AllocError, Global};
use text_core::{Word, is_same_name};

/// The table of a section.
fn table_in(alloc: Global, proxy: &Proxy) -> Result<Option<Table>, AllocError>
    ensures { IfOk result (λ table. table ≡ table_in proxy.now) }
{
    match last_table(proxy.own.items()) {
        Some(words) => Ok(Some(Table {
            section: proxy.head.section,
            name: Seq::duplicate_of(alloc, proxy.head.name.bytes())?,
            kind: words.keys,
            size: words.size,
            stores: words.stores,
            expire: words.expire,
        })),
        None => Ok(None),
    }
}

/// All tables, in the order of the text.
pub fn tables_in(alloc: Global, all: &[Proxy]) -> Result<Seq<Table>, AllocError>
    ensures value { IfOk result (λ tables. tables ≡ tables_in all.now) }
    ensures few { IfOk result (λ tables. length tables ≤ length all.now) }
{
    let mut tables = Seq::new(alloc);
    for proxy in all {
        if let Some(table) = table_in(alloc, proxy)? {
            tables.push(table)?;
        }
    }
    Ok(tables)
}

fn is_named(table: &Table, name: &Word) -> bool
    ensures { result ≡ bytes_eq table.now.name name.now }
{
    is_same_name(table.name.as_slice(), name.bytes())
}

fn is_table_of(table: &Table, name: &Word) -> bool
    ensures { result ≡ is_table_of name.now table.now }
{
    matches!(table.section, Section::Frontend) && is_named(table, name)
}

/// The place of the frontend's own table.
fn own_place(tables: &[Table], name: &Word) -> Option<usize>
    ensures value { result ≡ position (is_table_of name.now) tables.now }
    ensures within { IfSome result (λ n. n < length tables.now) }
{
    tables.iter().position(|table| is_table_of(table, name))
}

/// The place of the table of that name.
fn named_place(tables: &[Table], name: &Word) -> Option<usize>
    ensures value { result ≡ position (λ table. bytes_eq table.name name.now) tables.now }
    ensures within { IfSome result (λ n. n < length tables.now) }
{
    tables.iter().position(|table| is_named(table, name))
}

/// A place as a number.
pub fn number_of(place: Option<usize>) -> Option<u16>
    requires { IfSome place (λ n. n ≤ 65535) }
    ensures { result ≡ place }
{
    match place {
        Some(number) => Some(number as u16),
        None => None,
    }
}

/// The place of the table that a line of the frontend of that name means.
fn table_place(tables: &[Table], name: &Word, named: &Option<Word>) -> Option<usize>
    ensures value { result ≡ table_number tables.now name.now named.now }
    ensures within { IfSome result (λ n. n < length tables.now) }
{
    match named {
        Some(other) => named_place(tables, other),
        None => own_place(tables, name),
    }
}

/// The number of the table that a rule of the frontend of that name means.
fn table_number(tables: &[Table], name: &Word, named: &Option<Word>) -> Option<u16>
    requires { length tables.now ≤ 65535 }
    ensures { result ≡ table_number tables.now name.now named.now }
{
    number_of(table_place(tables, name, named))
}

/// What the table stores that a criterion in the frontend of that name means.
pub fn stores_meant(tables: &[Table], name: &Word, named: &Option<Word>) -> Option<Stores>
    ensures { result ≡ stores_meant tables.now name.now named.now }
{
    match table_place(tables, name, named) {
        Some(place) => Some(tables[place].stores),
        None => None,
    }
}

/// What a rule of the frontend of that name does, if the table that it means is there.
pub fn action_of(tables: &[Table], name: &Word, action: &conf_tree::ActionWords) -> Option<Action>
    requires { length tables.now ≤ 65535 }
    ensures { result ≡ action_of tables.now name.now action.now }
{
    match action {
        conf_tree::ActionWords::Accept => Some(Action::Accept),
        conf_tree::ActionWords::Reject => Some(Action::Reject),
        conf_tree::ActionWords::Track(track) => match table_number(tables, name, &track.table) {
            Some(table) => Some(Action::Track(track.counter, table)),
            None => None,
        },
        conf_tree::ActionWords::ExpectProxy => Some(Action::ExpectProxy),
    }
}

fn is_in(list: Ruleset, other: Ruleset) -> bool
    ensures { result ≡ is_in list other }
{
    match (list, other) {
        (Ruleset::Connection, Ruleset::Connection) => true,
        (Ruleset::Connection, Ruleset::Session) => false,
        (Ruleset::Session, Ruleset::Connection) => false,
        (Ruleset::Session, Ruleset::Session) => true,
    }
}

/// The rule that a line puts on that list.
fn line_rule(
    alloc: Global,
    list: Ruleset,
    tables: &[Table],
    name: &Word,
    item: &ConfigLine,
) -> Result<Option<Rule>, AllocError>
    requires { length tables.now ≤ 65535 }
    ensures { IfOk result (λ rule. rule ≡ line_rule list tables.now name.now item.now.line item.now.statement) }
{
    match &item.statement {
        Statement::Rule(other, action, when) => {
            if !is_in(list, *other) {
                return Ok(None);
            }
            match action_of(tables, name, action) {
                Some(action) => Ok(Some(Rule {
                    line: item.line,
                    action,
                    when: when.duplicate(alloc)?,
                })),
                None => Ok(None),
            }
        }
        _ => Ok(None),
    }
}

/// The rules of a list, in written order.
pub fn rules_in(
    alloc: Global,
    list: Ruleset,
    tables: &[Table],
    name: &Word,
    items: &[ConfigLine],
) -> Result<Seq<Rule>, AllocError>
    requires { length tables.now ≤ 65535 }
    ensures { IfOk result (λ rules. rules ≡ all_of (line_rule list tables.now name.now) items.now) }
{
    let mut rules = Seq::new(alloc);
    for item in items {
        if let Some(rule) = line_rule(alloc, list, tables, name, item)? {
            rules.push(rule)?;
        }
    }
    Ok(rules)
}
