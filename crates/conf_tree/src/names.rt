//! Names that the lines of a section declare.
ghost use Rattle.std.specs.Prelude.{◌≡◌, ◌∷◌, [], ◌++◌, if◌then◌else◌, IfOk};
ghost use Rattle.std.specs.List.{list_any};
ghost use Rattle.std.specs.Str.{bytes_eq};
ghost use Rattle.conf_tree.specs.Config.{acl_name, acl_names};

use crate::tree::ConfigLine;
use conf_line::Statement;
use list_core::Seq;
use std::alloc::{AllocError, Global};
use text_core::Word;

/// The name that a line declares.
fn acl_name<'a>(statement: &Statement<'a>) -> Option<Word<'a>>
    ensures { result ≡ acl_name statement.now }
{
    match statement {
        Statement::Acl(name, _) => Some(name.again()),
        _ => None,
    }
}

fn is_any_named(names: &[Word], name: &Word) -> bool
    ensures { result ≡ list_any (λ other. bytes_eq other name.now) names.now }
{
    names.iter().any(|other| other.is(name.bytes()))
}

/// The names with one more, unless it is there.
pub(crate) fn names_with<'a>(
    names: Seq<Word<'a>>,
    name: Word<'a>,
) -> Result<Seq<Word<'a>>, AllocError>
    ensures { IfOk result (λ more. more ≡ (if list_any (λ other. bytes_eq other name.entry) names.entry then names.entry else names.entry ++ name.entry ∷ [])) }
{
    let mut names = names;
    if !is_any_named(names.as_slice(), &name) {
        names.push(name)?;
    }
    Ok(names)
}

/// The names that the `acl` lines of some lines declare, each once, in the order of their first
/// declarations.
pub fn acl_names<'a>(alloc: Global, items: &[ConfigLine<'a>]) -> Result<Seq<Word<'a>>, AllocError>
    ensures { IfOk result (λ names. names ≡ acl_names items.now) }
{
    let mut names = Seq::new(alloc);
    for item in items {
        if let Some(name) = acl_name(&item.statement) {
            names = names_with(names, name)?;
        }
    }
    Ok(names)
}
