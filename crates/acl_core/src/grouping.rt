//! Reading conditions.
ghost use Rattle.std.specs.Prelude.{◌≡◌, ◌⊎◌, ◌<◌, ◌∷◌, false, [], length, position, IfOk, IfErr, IfSome, IfNone, Err};
ghost use Rattle.std.specs.List.{slice_split};
ghost use Rattle.list_core.specs.Each.{Gives, each};
ghost use Rattle.text_core.specs.Names.{place_of};
ghost use Rattle.acl_core.specs.Tokens.{tokens_of, is_or};
ghost use Rattle.acl_core.specs.Reading.{inner_test, open_brace_fault, operand_at, operand_by_name, operand_of, group_of, condition_of};

use crate::condition::{Cond, Operand, Term};
use crate::fault::AclFault;
use crate::reading::test;
use crate::test::Test;
use crate::token::{Token, tokens};
use list_core::{Seq, Stop};
use std::alloc::Global;
use text_core::{Word, place_of};

/// The test that the words between braces are.
fn inner_test(alloc: Global, words: &[Word]) -> Result<Test, Stop<AclFault>>
    ensures { Gives result (inner_test words.now) }
{
    if words.is_empty() {
        return Err(Stop::Fault(AclFault::BadBraces));
    }
    test(alloc, words)
}

/// The fault of words without their closing brace.
fn open_brace_fault(alloc: Global, words: &[Word]) -> Stop<AclFault>
    ensures { Gives (Err result) (open_brace_fault (inner_test words.now)) }
{
    match inner_test(alloc, words) {
        Err(Stop::Memory) => Stop::Memory,
        Err(Stop::Fault(AclFault::UnknownCriterion)) => Stop::Fault(AclFault::UnknownCriterion),
        Err(Stop::Fault(AclFault::BadPattern)) => Stop::Fault(AclFault::BadPattern),
        _ => Stop::Fault(AclFault::BadBraces),
    }
}

/// The operand that a word outside braces is.
fn operand_by_name(word: &Word, known: &[Word]) -> Result<Operand, AclFault>
    ensures { result ≡ operand_by_name known.now word.now }
{
    if word.is(b"TRUE") {
        Ok(Operand::Constant(true))
    } else if word.is(b"FALSE") {
        Ok(Operand::Constant(false))
    } else if word.is(b"}") {
        Err(AclFault::BadBraces)
    } else {
        match place_of(word.bytes(), known) {
            Some(number) => Ok(Operand::Acl(number)),
            None => Err(AclFault::UnknownName),
        }
    }
}

fn operand(alloc: Global, token: &Token, known: &[Word]) -> Result<Operand, Stop<AclFault>>
    ensures { Gives result (operand_of known.now token.now) }
{
    match token {
        Token::Not | Token::Or => Err(Stop::Fault(AclFault::EmptyGroup)),
        Token::Plain(word) => match operand_by_name(word, known) {
            Ok(operand) => Ok(operand),
            Err(fault) => Err(Stop::Fault(fault)),
        },
        Token::Braces(words) => Ok(Operand::Test(inner_test(alloc, words.as_slice())?)),
        Token::OpenBrace(words) => Err(open_brace_fault(alloc, words.as_slice())),
    }
}

/// The terms that tokens without `or` are.
fn terms(alloc: Global, tokens: &[Token], known: &[Word]) -> Result<Seq<Term>, Stop<AclFault>>
    ensures { Gives result (group_of known.now false tokens.now) }
{
    let mut terms = Seq::new(alloc);
    let mut negated = false;
    let mut is_awaited = true;
    for token in tokens {
        if token.is_not() {
            negated = !negated;
            is_awaited = true;
        } else {
            let operand = operand(alloc, token, known)?;
            terms.push(Term { negated, operand })?;
            negated = false;
            is_awaited = false;
        }
    }
    if is_awaited {
        return Err(Stop::Fault(AclFault::EmptyGroup));
    }
    Ok(terms)
}

fn first_or(tokens: &[Token]) -> Option<usize>
    ensures place { result ≡ position is_or tokens.now }
    ensures inside { IfSome result (λ at. at < length tokens.now) }
{
    tokens.iter().position(|token| token.is_or())
}

/// The tokens before the first `or`, and those after it.
fn cut_at_or<'t, 'a>(tokens: &'t [Token<'a>]) -> Option<(&'t [Token<'a>], &'t [Token<'a>])>
    ensures some { IfSome result (λ parts. slice_split is_or tokens.now ≡ parts.0.now ∷ slice_split is_or parts.1.now) }
    ensures none { IfNone result (slice_split is_or tokens.now ≡ tokens.now ∷ []) }
    ensures shorter { IfSome result (λ parts. length parts.1.now < length tokens.now) }
{
    match first_or(tokens) {
        Some(at) => Some((&tokens[..at], &tokens[at + 1..])),
        None => None,
    }
}

/// Those groups, and then the groups that tokens are.
fn groups(
    alloc: Global,
    done: Seq<Seq<Term>>,
    tokens: &[Token],
    known: &[Word],
) -> Result<Seq<Seq<Term>>, Stop<AclFault>>
    ensures { Gives result (each (λ done group. group_of known.now false group) done (slice_split is_or tokens.now)) }
{
    let mut done = done;
    match cut_at_or(tokens) {
        Some((group, rest)) => {
            done.push(terms(alloc, group, known)?)?;
            groups(alloc, done, rest, known)
        }
        None => {
            done.push(terms(alloc, tokens, known)?)?;
            Ok(done)
        }
    }
}

fn condition(alloc: Global, words: &[Word], known: &[Word]) -> Result<Cond, Stop<AclFault>>
    ensures { Gives result (condition_of known.now words.now) }
{
    let tokens = tokens(alloc, words)?;
    Ok(Cond {
        groups: groups(alloc, Seq::new(alloc), tokens.as_slice(), known)?,
    })
}

/// The condition that the words after `if` or `unless` are (HAProxy manual, "using ACLs to form
/// conditions"), where those names are known. A name has the number of its first place among them.
///
/// Of the words, read from the left, the first wrong one decides. That a brace is not closed, or that
/// the last group has no term, is seen at the end of the words.
pub fn read_cond(alloc: Global, words: &[Word], known: &[Word]) -> Result<Cond, AclFault>
    ensures ok { IfOk result (λ condition. condition_of known.now words.now ≡ Ok condition) }
    ensures fault { IfErr result (λ fault. (fault ≡ AclFault.NoMemory) ⊎ (condition_of known.now words.now ≡ Err fault)) }
{
    match condition(alloc, words, known) {
        Ok(condition) => Ok(condition),
        Err(Stop::Fault(fault)) => Err(fault),
        Err(Stop::Memory) => Err(AclFault::NoMemory),
    }
}
