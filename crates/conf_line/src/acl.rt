//! Declarations of ACLs.
ghost use Rattle.std.specs.Prelude.{◌≡◌, IfOk};
ghost use Rattle.list_core.specs.Each.{Gives};
ghost use Rattle.conf_line.specs.Words.{Sees};
ghost use Rattle.conf_line.specs.Sound.{IsSoundStatement};
ghost use Rattle.conf_line.specs.Acls.{acl_name_at, test_at, acl_of};

use crate::fault::ConfKind;
use crate::statement::Statement;
use crate::words::word_at;
use acl_core::{AclFault, Test, read_name, read_test};
use list_core::Stop;
use std::alloc::Global;
use text_core::Word;

/// The name of an ACL, and the words after it.
fn acl_name_at<'a, 'w>(words: &'w [Word<'a>]) -> Result<(Word<'a>, &'w [Word<'a>]), ConfKind>
    ensures { Sees (λ x. (x.0, x.1.now)) result (acl_name_at words.now) }
{
    let (word, rest) = word_at(words)?;
    match read_name(word) {
        Ok(name) => Ok((name, rest)),
        Err(fault) => Err(ConfKind::Acl(fault)),
    }
}

/// A criterion and its values.
fn test_at(alloc: Global, words: &[Word]) -> Result<Test, Stop<ConfKind>>
    ensures { Gives result (test_at words.now) }
{
    if words.is_empty() {
        return Err(Stop::Fault(ConfKind::MissingWord));
    }
    match read_test(alloc, words) {
        Ok(test) => Ok(test),
        Err(fault) => {
            if matches!(fault, AclFault::NoMemory) {
                return Err(Stop::Memory);
            }
            Err(Stop::Fault(ConfKind::Acl(fault)))
        }
    }
}

/// A name, and a test that it means.
pub fn acl<'a>(alloc: Global, words: &[Word<'a>]) -> Result<Statement<'a>, Stop<ConfKind>>
    ensures value { Gives result (acl_of words.now) }
    ensures sound { IfOk result IsSoundStatement }
{
    match acl_name_at(words) {
        Ok((name, rest)) => Ok(Statement::Acl(name, test_at(alloc, rest)?)),
        Err(kind) => Err(Stop::Fault(kind)),
    }
}
