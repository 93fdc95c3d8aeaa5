//! The tokens of a condition.
ghost use Rattle.std.specs.Prelude.{◌≡◌, ℕ, ◌++◌, ◌∷◌, List, [], Some, None, IfOk, OnOk};
ghost use Rattle.acl_core.specs.Tokens.{marks, bare, is_not, is_or, plain, tokens_after, tokens_of};

use list_core::Seq;
use std::alloc::{AllocError, Global};
use text_core::Word;

/// A token of a condition.
#[derive(Debug, Drop)]
pub enum Token<'a> {
    /// `!`
    Not,
    /// `or` or `||`
    Or,
    /// Another word outside braces.
    Plain(Word<'a>),
    /// Braces, with the words between them.
    Braces(Seq<Word<'a>>),
    /// A brace that is not closed, with the words after it.
    OpenBrace(Seq<Word<'a>>),
}

impl<'a> Token<'a> {
    pub fn is_not(&self) -> bool
        ensures { result ≡ is_not self.now }
    {
        match self {
            Token::Not => true,
            Token::Or | Token::Plain(_) | Token::Braces(_) | Token::OpenBrace(_) => false,
        }
    }

    pub fn is_or(&self) -> bool
        ensures { result ≡ is_or self.now }
    {
        match self {
            Token::Or => true,
            Token::Not | Token::Plain(_) | Token::Braces(_) | Token::OpenBrace(_) => false,
        }
    }
}

/// The `!` at the head of a word become tokens. Returns the rest of the word.
fn push_marks<'a>(tokens: &mut Seq<Token<'a>>, word: &Word<'a>) -> Result<&'a [u8], AllocError>
    ensures tokens { OnOk result (tokens.new ≡ tokens.old ++ marks word.now) }
    ensures bare { IfOk result (λ rest. rest.now ≡ bare word.now) }
{
    let mut rest = word.bytes();
    while let [b'!', more @ ..] = rest {
        tokens.push(Token::Not)?;
        rest = more;
    }
    Ok(rest)
}

/// A word outside braces, after its marks, becomes a token.
fn push_plain<'a>(tokens: &mut Seq<Token<'a>>, bare: Word<'a>) -> Result<(), AllocError>
    ensures { OnOk result (tokens.new ≡ tokens.old ++ plain bare.entry) }
{
    if bare.bytes().is_empty() {
        return Ok(());
    }
    if bare.is(b"or") || bare.is(b"||") {
        tokens.push(Token::Or)?;
        return Ok(());
    }
    tokens.push(Token::Plain(bare))?;
    Ok(())
}

/// One more word outside braces. Returns the words of a brace that is open then.
fn push_outside<'a>(
    alloc: Global,
    tokens: &mut Seq<Token<'a>>,
    word: &Word<'a>,
) -> Result<Option<Seq<Word<'a>>>, AllocError>
    ensures { IfOk result (λ next. (rest : List (List ℕ)) →
        tokens.new ++ tokens_after next rest ≡ tokens.old ++ tokens_after None (word.now ∷ rest)) }
{
    let bare = Word::of(push_marks(tokens, word)?);
    if bare.is(b"{") {
        return Ok(Some(Seq::new(alloc)));
    }
    push_plain(tokens, bare)?;
    Ok(None)
}

/// One more word after an open brace and those words. Returns the words of a brace that is open then.
fn push_inside<'a>(
    tokens: &mut Seq<Token<'a>>,
    inside: Seq<Word<'a>>,
    word: &Word<'a>,
) -> Result<Option<Seq<Word<'a>>>, AllocError>
    ensures { IfOk result (λ next. (rest : List (List ℕ)) →
        tokens.new ++ tokens_after next rest ≡ tokens.old ++ tokens_after (Some inside.entry) (word.now ∷ rest)) }
{
    if word.is(b"}") {
        tokens.push(Token::Braces(inside))?;
        return Ok(None);
    }
    let mut inside = inside;
    inside.push(word.again())?;
    Ok(Some(inside))
}

/// The tokens of the words of a condition.
pub fn tokens<'a>(alloc: Global, words: &[Word<'a>]) -> Result<Seq<Token<'a>>, AllocError>
    ensures { IfOk result (λ tokens. tokens ≡ tokens_of words.now) }
{
    let mut tokens = Seq::new(alloc);
    let mut open = None;
    for word in words {
        open = match open {
            Some(inside) => push_inside(&mut tokens, inside, word)?,
            None => push_outside(alloc, &mut tokens, word)?,
        };
    }
    if let Some(inside) = open {
        tokens.push(Token::OpenBrace(inside))?;
    }
    Ok(tokens)
}
