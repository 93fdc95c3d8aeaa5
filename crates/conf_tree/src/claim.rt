//! What may be given once in a configuration.
ghost use Rattle.std.specs.Prelude.{◌≡◌, map, length, filter};
ghost use Rattle.std.specs.List.{list_any};
ghost use Rattle.conf_tree.specs.Config.{claim_of, same_claim, is_frontend, is_backend};
ghost use Rattle.conf_tree.specs.Marks.{mark_of};

use crate::tree::SectionPlace;
use addr_core::Endpoint;
use conf_line::Statement;
use list_core::Seq;
use std::alloc::{AllocError, Global};
use std::marker::Model;
use text_core::Word;

/// What a line claims for itself in the whole text.
#[derive(Drop)]
pub enum Claim<'a> {
    /// The name of a frontend.
    Frontend(Word<'a>),
    /// The name of a backend.
    Backend(Word<'a>),
    /// Where a frontend listens.
    Endpoint(Endpoint),
    /// The table of a name.
    Table(Word<'a>),
}

/// What a line in that section claims.
pub fn claim_of<'a>(place: &SectionPlace<'a>, statement: &Statement<'a>) -> Option<Claim<'a>>
    ensures { result ≡ claim_of place.now statement.now }
{
    match statement {
        Statement::Frontend(name) => Some(Claim::Frontend(name.again())),
        Statement::Backend(name) => Some(Claim::Backend(name.again())),
        Statement::Bind(at, _) => Some(Claim::Endpoint(*at)),
        Statement::StickTable(_) => Some(Claim::Table(place.name.again())),
        _ => None,
    }
}

fn same_claim(a: &Claim, b: &Claim) -> bool
    ensures { result ≡ same_claim a.now b.now }
{
    match (a, b) {
        (Claim::Frontend(a), Claim::Frontend(b)) => a.is(b.bytes()),
        (Claim::Backend(a), Claim::Backend(b)) => a.is(b.bytes()),
        (Claim::Endpoint(a), Claim::Endpoint(b)) => a.is_same(b),
        (Claim::Table(a), Claim::Table(b)) => a.is(b.bytes()),
        _ => false,
    }
}

/// A number that the same claims share, by which most others are seen to differ at once.
fn mark_of(claim: &Claim) -> u16
    ensures { result ≡ mark_of claim.now }
{
    match claim {
        Claim::Endpoint(at) => at.port,
        Claim::Frontend(_) | Claim::Backend(_) | Claim::Table(_) => 0,
    }
}

fn has_same(taken: &[Claim], claim: &Claim) -> bool
    ensures { result ≡ list_any (same_claim claim.now) taken.now }
{
    taken.iter().any(|other| same_claim(claim, other))
}

fn has_claim(taken: &[Claim], marks: &[u16], claim: &Claim) -> bool
    requires { marks.now ≡ map mark_of taken.now }
    ensures { result ≡ list_any (same_claim claim.now) taken.now }
{
    if !marks.contains(&mark_of(claim)) {
        return false;
    }
    has_same(taken, claim)
}

fn is_frontend(claim: &Claim) -> bool
    ensures { result ≡ is_frontend claim.now }
{
    matches!(claim, Claim::Frontend(_))
}

fn is_backend(claim: &Claim) -> bool
    ensures { result ≡ is_backend claim.now }
{
    matches!(claim, Claim::Backend(_))
}

fn frontend_count(taken: &[Claim]) -> usize
    ensures { result ≡ length (filter is_frontend taken.now) }
{
    taken.iter().filter(|claim| is_frontend(claim)).count()
}

fn backend_count(taken: &[Claim]) -> usize
    ensures { result ≡ length (filter is_backend taken.now) }
{
    taken.iter().filter(|claim| is_backend(claim)).count()
}

/// What the lines so far claim. Contracts see the list of the claims.
#[derive(Drop)]
pub struct Claims<'a> {
    all: Seq<Claim<'a>>,
    marks: Seq<u16>,
}

impl<'a> Model for Claims<'a> {
    ghost use Rattle.std.specs.Prelude.{◌≡◌, List, map};
    ghost use Rattle.conf_tree.specs.declared.claim.Claim.{Claim};
    ghost use Rattle.conf_tree.specs.Marks.{mark_of};

    ghost Value = { List Claim };

    ghost view = { λ c. c.all };

    ghost invariant = { λ c. c.marks ≡ map mark_of c.all };
}

impl<'a> Claims<'a> {
    ghost use Rattle.std.specs.Prelude.{◌≡◌, ◌++◌, [], length, filter, option_to_list, IfOk};
    ghost use Rattle.conf_tree.specs.Config.{is_claim_taken, is_frontend, is_backend};

    pub fn new(alloc: Global) -> Self
        ensures { result ≡ [] }
    {
        Claims {
            all: Seq::new(alloc),
            marks: Seq::new(alloc),
        }
    }

    /// Whether that is claimed already.
    pub fn has(&self, claim: &Option<Claim>) -> bool
        ensures { result ≡ is_claim_taken self.now claim.now }
    {
        match claim {
            Some(claim) => has_claim(self.all.as_slice(), self.marks.as_slice(), claim),
            None => false,
        }
    }

    /// How many frontends there are.
    pub fn frontends(&self) -> usize
        ensures { result ≡ length (filter is_frontend self.now) }
    {
        frontend_count(self.all.as_slice())
    }

    /// How many backends there are.
    pub fn backends(&self) -> usize
        ensures { result ≡ length (filter is_backend self.now) }
    {
        backend_count(self.all.as_slice())
    }

    /// The claims with one more. Without memory they are given up.
    pub fn with(self, claim: Option<Claim<'a>>) -> Result<Self, AllocError>
        ensures { IfOk result (λ claims. claims ≡ self.entry ++ option_to_list claim.entry) }
    {
        let Some(claim) = claim else {
            return Ok(self);
        };
        let Claims { mut all, mut marks } = self;
        marks.push(mark_of(&claim))?;
        all.push(claim)?;
        Ok(Claims { all, marks })
    }
}
