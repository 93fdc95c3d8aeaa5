//! Reading tests.
ghost use Rattle.std.specs.Prelude.{◌≡◌, ◌⊎◌, [], ◌∷◌, IfOk, IfErr, None};
ghost use Rattle.list_core.specs.Each.{Gives, each};
ghost use Rattle.addr_core.specs.Text.{net_of};
ghost use Rattle.text_core.specs.Cut.{cut};
ghost use Rattle.acl_core.specs.Reading.{network_of, number_in, end_in, range_between, range_in, range_of, bound_of, value_of, values_of, tracked_criterion, criterion_alone, criterion_on, argument_in, criterion_of, operator_of, numbers_of, patterns_of, test_of, is_reserved, declared_name};

use crate::criterion::{Criterion, Operator, Pattern};
use crate::fault::AclFault;
use crate::test::Test;
use addr_core::read_net;
use list_core::{Seq, Stop};
use std::alloc::Global;
use text_core::decimal::read_number;
use text_core::{Word, cut_at, is_name};

/// How the values of a test are read.
#[derive(Clone, Copy)]
enum Form {
    Networks,
    /// Numbers, and ranges of them.
    Ranges,
    /// Numbers after an operator.
    Bounds(Operator),
}

fn network(word: &[u8]) -> Result<Pattern, AclFault>
    ensures { result ≡ network_of (net_of word.now) }
{
    match read_net(word) {
        Ok(net) => Ok(Pattern::Network(net)),
        Err(_) => Err(AclFault::BadPattern),
    }
}

fn number(word: &[u8]) -> Result<u64, AclFault>
    ensures { result ≡ number_in word.now }
{
    match read_number(word, u64::MAX) {
        Some(number) => Ok(number),
        None => Err(AclFault::BadPattern),
    }
}

/// One end of a range, where it is not left out.
fn end(absent: u64, word: &[u8]) -> Result<u64, AclFault>
    ensures { result ≡ end_in absent word.now }
{
    if word.is_empty() {
        return Ok(absent);
    }
    number(word)
}

/// A range by the texts before and after its colon.
fn range_between(low: &[u8], high: &[u8]) -> Result<Pattern, AclFault>
    ensures { result ≡ range_between low.now high.now }
{
    if low.is_empty() && high.is_empty() {
        return Err(AclFault::BadPattern);
    }
    let least = end(0, low)?;
    let most = end(u64::MAX, high)?;
    Ok(Pattern::Within(least, most))
}

fn single(word: &[u8]) -> Result<Pattern, AclFault>
    ensures { result ≡ range_in word.now None }
{
    let number = number(word)?;
    Ok(Pattern::Within(number, number))
}

/// A number alone, or a range by its first colon.
fn range(word: &[u8]) -> Result<Pattern, AclFault>
    ensures { result ≡ range_of word.now }
{
    match cut_at(word, b':') {
        Some((low, high)) => range_between(low, high),
        None => single(word),
    }
}

fn bound(operator: Operator, word: &[u8]) -> Result<Pattern, AclFault>
    ensures { result ≡ bound_of operator word.now }
{
    let number = number(word)?;
    Ok(Pattern::Compared(operator, number))
}

fn value(form: Form, word: &Word) -> Result<Pattern, AclFault>
    ensures { result ≡ value_of form word.now }
{
    match form {
        Form::Networks => network(word.bytes()),
        Form::Ranges => range(word.bytes()),
        Form::Bounds(operator) => bound(operator, word.bytes()),
    }
}

fn each_value(alloc: Global, form: Form, words: &[Word]) -> Result<Seq<Pattern>, Stop<AclFault>>
    ensures { Gives result (each (λ done w. value_of form w) [] words.now) }
{
    let mut patterns = Vec::new(alloc);
    for word in words {
        match value(form, word) {
            Ok(pattern) => {
                if patterns.is_empty() {
                    patterns.reserve_exact(words.len())?;
                }
                patterns.push(pattern)?;
            }
            Err(fault) => return Err(Stop::Fault(fault)),
        }
    }
    Ok(Seq::of(patterns))
}

/// One value or more.
fn values(alloc: Global, form: Form, words: &[Word]) -> Result<Seq<Pattern>, Stop<AclFault>>
    ensures { Gives result (values_of form words.now) }
{
    match words {
        [] => Err(Stop::Fault(AclFault::NoPattern)),
        [_, ..] => each_value(alloc, form, words),
    }
}

/// A count of a counter.
fn tracked_criterion(word: &Word) -> Result<Criterion, AclFault>
    ensures { result ≡ tracked_criterion word.now }
{
    if word.is(b"sc0_conn_cur") {
        Ok(Criterion::TrackedConnections(0))
    } else if word.is(b"sc1_conn_cur") {
        Ok(Criterion::TrackedConnections(1))
    } else if word.is(b"sc2_conn_cur") {
        Ok(Criterion::TrackedConnections(2))
    } else if word.is(b"sc0_conn_cnt") {
        Ok(Criterion::TrackedTotal(0))
    } else if word.is(b"sc1_conn_cnt") {
        Ok(Criterion::TrackedTotal(1))
    } else if word.is(b"sc2_conn_cnt") {
        Ok(Criterion::TrackedTotal(2))
    } else {
        Err(AclFault::UnknownCriterion)
    }
}

/// A criterion without argument.
fn criterion_alone(word: &Word) -> Result<Criterion, AclFault>
    ensures { result ≡ criterion_alone word.now }
{
    if word.is(b"src") {
        Ok(Criterion::Source)
    } else if word.is(b"src_conn_cur") {
        Ok(Criterion::SourceConnections(None))
    } else if word.is(b"src_conn_cnt") {
        Ok(Criterion::SourceTotal(None))
    } else if word.is(b"fe_conn") {
        Ok(Criterion::FrontendConnections(None))
    } else {
        tracked_criterion(word)
    }
}

/// A criterion with a name as its argument.
fn criterion_on(keyword: &Word, name: Seq<u8>) -> Result<Criterion, AclFault>
    ensures { result ≡ criterion_on keyword.now name }
{
    if keyword.is(b"src_conn_cur") {
        Ok(Criterion::SourceConnections(Some(name)))
    } else if keyword.is(b"src_conn_cnt") {
        Ok(Criterion::SourceTotal(Some(name)))
    } else if keyword.is(b"fe_conn") {
        Ok(Criterion::FrontendConnections(Some(name)))
    } else if keyword.is(b"be_conn") {
        Ok(Criterion::BackendConnections(name))
    } else {
        Err(AclFault::UnknownCriterion)
    }
}

/// The name between the brackets, by the text after the first.
fn argument(alloc: Global, text: &[u8]) -> Result<Seq<u8>, Stop<AclFault>>
    ensures { Gives result (argument_in (cut (41 ∷ []) text.now)) }
{
    match cut_at(text, b')') {
        Some((name, [])) if is_name(name) => Ok(Seq::duplicate_of(alloc, name)?),
        _ => Err(Stop::Fault(AclFault::UnknownCriterion)),
    }
}

fn criterion(alloc: Global, word: &Word) -> Result<Criterion, Stop<AclFault>>
    ensures { Gives result (criterion_of word.now) }
{
    let read = match cut_at(word.bytes(), b'(') {
        Some((keyword, rest)) => criterion_on(&Word::of(keyword), argument(alloc, rest)?),
        None => criterion_alone(word),
    };
    match read {
        Ok(criterion) => Ok(criterion),
        Err(fault) => Err(Stop::Fault(fault)),
    }
}

fn operator(word: &Word) -> Option<Operator>
    ensures { result ≡ operator_of word.now }
{
    if word.is(b"eq") {
        Some(Operator::Equal)
    } else if word.is(b"ge") {
        Some(Operator::AtLeast)
    } else if word.is(b"gt") {
        Some(Operator::Above)
    } else if word.is(b"le") {
        Some(Operator::AtMost)
    } else if word.is(b"lt") {
        Some(Operator::Below)
    } else {
        None
    }
}

/// Numbers and ranges, or an operator and then numbers only.
fn numbers(alloc: Global, words: &[Word]) -> Result<Seq<Pattern>, Stop<AclFault>>
    ensures { Gives result (numbers_of words.now) }
{
    match words {
        [] => Err(Stop::Fault(AclFault::NoPattern)),
        [word, rest @ ..] => match operator(word) {
            Some(operator) => values(alloc, Form::Bounds(operator), rest),
            None => values(alloc, Form::Ranges, words),
        },
    }
}

/// The values of a criterion.
fn patterns(
    alloc: Global,
    criterion: &Criterion,
    words: &[Word],
) -> Result<Seq<Pattern>, Stop<AclFault>>
    ensures { Gives result (patterns_of criterion.now words.now) }
{
    match criterion {
        Criterion::Source => values(alloc, Form::Networks, words),
        _ => numbers(alloc, words),
    }
}

/// A criterion and its values.
pub(crate) fn test(alloc: Global, words: &[Word]) -> Result<Test, Stop<AclFault>>
    ensures { Gives result (test_of words.now) }
{
    match words {
        [] => Err(Stop::Fault(AclFault::UnknownCriterion)),
        [word, rest @ ..] => {
            let criterion = criterion(alloc, word)?;
            let patterns = patterns(alloc, &criterion, rest)?;
            Ok(Test::of(alloc, criterion, patterns)?)
        }
    }
}

/// The name that an `acl` line declares: letters, digits, `-`, `_`, `.` and `:`, and not `TRUE`,
/// `FALSE` or `or`, which mean something else in a condition.
pub fn read_name<'a>(word: &Word<'a>) -> Result<Word<'a>, AclFault>
    ensures { result ≡ declared_name word.now }
{
    if !is_name(word.bytes()) || is_reserved(word) {
        return Err(AclFault::BadName);
    }
    Ok(word.again())
}

fn is_reserved(word: &Word) -> bool
    ensures { result ≡ is_reserved word.now }
{
    word.is(b"TRUE") || word.is(b"FALSE") || word.is(b"or")
}

/// The test that the words are: a criterion and its values, as of an `acl` line after its name
/// (HAProxy manual, `acl`). Of the words, read from the left, the first wrong one decides; without a
/// word there is no criterion.
pub fn read_test(alloc: Global, words: &[Word]) -> Result<Test, AclFault>
    ensures ok { IfOk result (λ test. test_of words.now ≡ Ok test) }
    ensures fault { IfErr result (λ fault. (fault ≡ AclFault.NoMemory) ⊎ (test_of words.now ≡ Err fault)) }
{
    match test(alloc, words) {
        Ok(test) => Ok(test),
        Err(Stop::Fault(fault)) => Err(fault),
        Err(Stop::Memory) => Err(AclFault::NoMemory),
    }
}
