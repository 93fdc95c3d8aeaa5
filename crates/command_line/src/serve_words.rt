//! The words of `serve`.
ghost use Rattle.std.specs.Prelude.{◌≤◌};
ghost use Rattle.proxy_types.specs.declared.limits.TheConstants.{MOST_WORKERS};

use clap::ArgMatches;
use proxy_types::MOST_WORKERS;
use std::alloc::{AllocError, Global};

/// The words of the command `serve`.
#[derive(Drop)]
pub struct ServeWords {
    pub file: String,
    /// Where it is asked for its state.
    pub stats: Option<String>,
    /// 1 to 64.
    pub workers: u16,
    pub ghost some_workers: { 1 ≤ workers },
    pub ghost few_workers: { workers ≤ MOST_WORKERS },
}

impl ServeWords {
    /// What the words name.
    pub fn of(alloc: Global, given: &ArgMatches<'_>) -> Result<ServeWords, AllocError> {
        let mut file = String::new(alloc);
        file.push_str(given.get_str("FILE").unwrap_or(""))?;
        let stats = match given.get_str("stats") {
            Some(word) => Some(String::from_str(alloc, word)?),
            None => None,
        };
        let workers = given.get_one("workers").unwrap_or(1).clamp(1, MOST_WORKERS);
        Ok(ServeWords {
            file,
            stats,
            workers,
        })
    }
}
