//! Keywords.
ghost use Rattle.std.specs.Prelude.{◌≡◌};
ghost use Rattle.conf_line.specs.Keywords.{keyword_of, check_keyword, check_keyword_in, check_support, in_backend, in_defaults, in_frontend, in_global};

use crate::fault::ConfKind;
use crate::statement::SectionKind;
use text_core::Word;

/// The first word of a line.
#[derive(Clone, Copy)]
pub enum Keyword {
    Global,
    Defaults,
    Frontend,
    Backend,
    Listen,
    Mode,
    MaxConn,
    DefaultBackend,
    Balance,
    Bind,
    Acl,
    TcpRequest,
    UseBackend,
    StickTable,
    Server,
    Log,
    Option,
    Timeout,
    Retries,
    Daemon,
    User,
    Group,
    Chroot,
    Pidfile,
    Nbthread,
    Unknown,
}

/// The keywords by their words.
static KEYWORDS: [(&[u8], Keyword); 25] = [
    (b"global", Keyword::Global),
    (b"defaults", Keyword::Defaults),
    (b"frontend", Keyword::Frontend),
    (b"backend", Keyword::Backend),
    (b"listen", Keyword::Listen),
    (b"mode", Keyword::Mode),
    (b"maxconn", Keyword::MaxConn),
    (b"default_backend", Keyword::DefaultBackend),
    (b"balance", Keyword::Balance),
    (b"bind", Keyword::Bind),
    (b"acl", Keyword::Acl),
    (b"tcp-request", Keyword::TcpRequest),
    (b"use_backend", Keyword::UseBackend),
    (b"stick-table", Keyword::StickTable),
    (b"server", Keyword::Server),
    (b"log", Keyword::Log),
    (b"option", Keyword::Option),
    (b"timeout", Keyword::Timeout),
    (b"retries", Keyword::Retries),
    (b"daemon", Keyword::Daemon),
    (b"user", Keyword::User),
    (b"group", Keyword::Group),
    (b"chroot", Keyword::Chroot),
    (b"pidfile", Keyword::Pidfile),
    (b"nbthread", Keyword::Nbthread),
];

pub fn keyword_of(word: &Word) -> Keyword
    ensures { result ≡ keyword_of word.now }
{
    for (text, keyword) in &KEYWORDS {
        if word.is(text) {
            return *keyword;
        }
    }
    Keyword::Unknown
}

/// Whether the keyword is one of a section of this kind.
pub fn check_keyword(kind: SectionKind, keyword: Keyword) -> Result<(), ConfKind>
    ensures { result ≡ check_keyword kind keyword }
{
    match keyword {
        Keyword::Unknown => Err(ConfKind::UnknownKeyword),
        Keyword::Listen => Err(ConfKind::Unsupported),
        Keyword::Global | Keyword::Defaults | Keyword::Frontend | Keyword::Backend => Ok(()),
        _ => check_keyword_in(kind, keyword),
    }
}

/// The same of a keyword that opens no section.
fn check_keyword_in(kind: SectionKind, keyword: Keyword) -> Result<(), ConfKind>
    ensures { result ≡ check_keyword_in kind keyword }
{
    match kind {
        SectionKind::Outside => Err(ConfKind::NoSection),
        SectionKind::Global => check_support(in_global(keyword)),
        SectionKind::Defaults => check_support(in_defaults(keyword)),
        SectionKind::Frontend => check_support(in_frontend(keyword)),
        SectionKind::Backend => check_support(in_backend(keyword)),
    }
}

fn check_support(is_supported: bool) -> Result<(), ConfKind>
    ensures { result ≡ check_support is_supported }
{
    if is_supported {
        Ok(())
    } else {
        Err(ConfKind::Unsupported)
    }
}

/// Whether a keyword is one of `global`.
fn in_global(keyword: Keyword) -> bool
    ensures { result ≡ in_global keyword }
{
    matches!(
        keyword,
        Keyword::Log
            | Keyword::Daemon
            | Keyword::User
            | Keyword::Group
            | Keyword::Chroot
            | Keyword::Pidfile
            | Keyword::Nbthread
    )
}

/// Whether a keyword is one of `defaults`.
fn in_defaults(keyword: Keyword) -> bool
    ensures { result ≡ in_defaults keyword }
{
    matches!(
        keyword,
        Keyword::Mode
            | Keyword::MaxConn
            | Keyword::DefaultBackend
            | Keyword::Balance
            | Keyword::Log
            | Keyword::Option
            | Keyword::Timeout
            | Keyword::Retries
    )
}

/// Whether a keyword is one of a frontend.
fn in_frontend(keyword: Keyword) -> bool
    ensures { result ≡ in_frontend keyword }
{
    matches!(
        keyword,
        Keyword::Mode
            | Keyword::MaxConn
            | Keyword::DefaultBackend
            | Keyword::Bind
            | Keyword::Acl
            | Keyword::TcpRequest
            | Keyword::UseBackend
            | Keyword::StickTable
            | Keyword::Log
            | Keyword::Option
            | Keyword::Timeout
            | Keyword::Retries
    )
}

/// Whether a keyword is one of a backend.
fn in_backend(keyword: Keyword) -> bool
    ensures { result ≡ in_backend keyword }
{
    matches!(
        keyword,
        Keyword::Mode
            | Keyword::Balance
            | Keyword::StickTable
            | Keyword::Server
            | Keyword::Log
            | Keyword::Option
            | Keyword::Timeout
            | Keyword::Retries
    )
}
