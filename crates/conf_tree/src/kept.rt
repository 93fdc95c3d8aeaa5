//! What the lines so far say, and what of it is wanted again at each line.
ghost use Rattle.std.specs.Prelude.{◌≡◌, ◌++◌, ◌∷◌, [], IfOk};
ghost use Rattle.conf_tree.specs.Config.{claims_of};
ghost use Rattle.conf_tree.specs.Kept.{names_after};

use crate::claim::{Claims, claim_of};
use crate::names::names_with;
use crate::tree::ConfigLine;
use conf_line::Statement;
use list_core::Seq;
use std::alloc::{AllocError, Global};
use std::marker::Model;
use text_core::Word;

/// What the lines so far say that have an effect. Contracts see the list of the items.
#[derive(Drop)]
pub struct Kept<'a> {
    items: Seq<ConfigLine<'a>>,
    claims: Claims<'a>,
    /// The names that the lines of the section declare.
    known: Seq<Word<'a>>,
}

impl<'a> Model for Kept<'a> {
    ghost use Rattle.std.specs.Prelude.{List};
    ghost use Rattle.conf_tree.specs.declared.tree.ConfigLine.{ConfigLine};
    ghost use Rattle.conf_tree.specs.Kept.{IsKept};

    ghost Value = { List ConfigLine };

    ghost view = { λ k. k.items };

    ghost invariant = { λ k. IsKept k.items k.claims k.known };
}

/// What is claimed with one item more.
fn claims_with<'a>(taken: Claims<'a>, item: &ConfigLine<'a>) -> Result<Claims<'a>, AllocError>
    ensures { IfOk result (λ claims. claims ≡ taken.entry ++ claims_of (item.now ∷ [])) }
{
    let claim = claim_of(&item.place, &item.statement);
    taken.with(claim)
}

/// The names known after a line, where those are known before it.
fn names_after<'a>(
    alloc: Global,
    known: Seq<Word<'a>>,
    statement: &Statement<'a>,
) -> Result<Seq<Word<'a>>, AllocError>
    ensures { IfOk result (λ names. names ≡ names_after known.entry statement.now) }
{
    match statement {
        Statement::Global | Statement::Defaults | Statement::Frontend(_) | Statement::Backend(_) =>
            Ok(Seq::new(alloc)),
        Statement::Acl(name, _) => names_with(known, name.again()),
        _ => Ok(known),
    }
}

impl<'a> Kept<'a> {
    ghost use Rattle.std.specs.Prelude.{◌≡◌, [], ◌++◌, ◌∷◌, IfOk};
    ghost use Rattle.conf_tree.specs.Config.{known_names, claims_of};
    ghost use Rattle.conf_tree.specs.Few.{FewSections};
    ghost use Rattle.conf_tree.specs.Sound.{AreSoundStatements, ClaimsDiffer, AreSoundSections};
    ghost use Rattle.conf_tree.specs.Kept.{IsNext};

    pub fn new(alloc: Global) -> Self
        ensures { result ≡ [] }
    {
        Kept {
            items: Seq::new(alloc),
            claims: Claims::new(alloc),
            known: Seq::new(alloc),
        }
    }

    pub fn items(&self) -> &[ConfigLine<'a>]
        ensures { result.now ≡ self.now }
    {
        self.items.as_slice()
    }

    /// What the lines claim.
    pub fn claims(&self) -> &Claims<'a>
        ensures { result.now ≡ claims_of self.now }
    {
        &self.claims
    }

    /// The names that a condition on the next line may ask for.
    pub fn known(&self) -> &[Word<'a>]
        ensures { result.now ≡ known_names self.now }
    {
        self.known.as_slice()
    }

    pub fn into_items(self) -> Seq<ConfigLine<'a>>
        ensures items { result ≡ self.entry }
        ensures few { FewSections self.entry }
        ensures statements { AreSoundStatements self.entry }
        ensures claims { ClaimsDiffer (claims_of self.entry) }
        ensures sections { AreSoundSections self.entry }
    {
        let Kept {
            items,
            claims: _,
            known: _,
        } = self;
        items
    }

    /// Those, and the item of the next line. Without memory they are given up.
    pub fn with(self, alloc: Global, item: ConfigLine<'a>) -> Result<Self, AllocError>
        requires { IsNext self item }
        ensures { IfOk result (λ kept. kept ≡ self.entry ++ item.entry ∷ []) }
    {
        let Kept {
            mut items,
            claims,
            known,
        } = self;
        let claims = claims_with(claims, &item);
        let known = names_after(alloc, known, &item.statement);
        items.push(item)?;
        let claims = claims?;
        let known = known?;
        Ok(Kept {
            items,
            claims,
            known,
        })
    }
}
