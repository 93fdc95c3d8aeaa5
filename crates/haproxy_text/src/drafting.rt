//! The lines of `l4proxy` for each line of HAProxy's, before they are read.
use crate::item::{Fate, Item};
use crate::servers::{WrittenLine, bind_lines, server_line, words_after};
use crate::source::{Kind, SourceLine, SourceSection};
use refusal_text::{Concern, WordPlace, advice_on};
use std::alloc::{AllocError, Global};

/// The lines so far, and what `defaults` and the open section say for those that come.
#[derive(Drop)]
pub struct Draft {
    alloc: Global,
    pub items: Vec<Item>,
    /// The lines of the backend that a `listen` section is written as, besides its frontend.
    behind: Vec<Item>,
    /// The name of the last `defaults`.
    defaults: String,
    /// The options of `default-server` lines, of `defaults` and of the open section.
    inherited_options: String,
    options: String,
    /// Whether `defaults` has these lines.
    inherits_retries: bool,
    inherits_default: bool,
    inherits_limit: bool,
}

/// Whether a line of a `listen` section belongs to the backend.
fn is_behind(line: &SourceLine<'_>) -> bool {
    match line.word(0) {
        "server" | "default-server" | "balance" | "retries" => true,
        "option" => line.word(1) == "redispatch",
        "timeout" => matches!(line.word(1), "connect" | "server"),
        _ => false,
    }
}

impl Draft {
    pub fn new(alloc: Global) -> Self {
        Draft {
            alloc,
            items: Vec::new(alloc),
            behind: Vec::new(alloc),
            defaults: String::new(alloc),
            inherited_options: String::new(alloc),
            options: String::new(alloc),
            inherits_retries: false,
            inherits_default: false,
            inherits_limit: false,
        }
    }

    /// Adds a line to the section that is written, or to the backend behind it.
    fn add(&mut self, item: Item, to_behind: bool) -> Result<(), AllocError> {
        if to_behind {
            self.behind.push(item)?;
        } else {
            self.items.push(item)?;
        }
        Ok(())
    }

    /// Adds a line of HAProxy's in other words.
    fn add_written(
        &mut self,
        line: &SourceLine<'_>,
        written: WrittenLine,
        to_behind: bool,
    ) -> Result<(), AllocError> {
        let WrittenLine { code, notes } = written;
        let mut item = Item::new(self.alloc, line.number, line.text, code.as_str())?;
        item.notes = notes;
        self.add(item, to_behind)
    }

    /// Adds a line that is not in the text of HAProxy.
    fn add_new(&mut self, code: &str, why: &str, to_behind: bool) -> Result<(), AllocError> {
        let mut item = Item::new(self.alloc, 0, "", code)?;
        item.notes.push(String::from_str(self.alloc, why)?)?;
        self.add(item, to_behind)
    }

    /// Adds a line of HAProxy's as a comment.
    fn add_left_out(
        &mut self,
        line: &SourceLine<'_>,
        said: String,
        concern: Concern,
        to_behind: bool,
    ) -> Result<(), AllocError> {
        let mut item = Item::new(self.alloc, line.number, line.text, "")?;
        item.leave_out(said, concern)?;
        self.add(item, to_behind)
    }

    /// Keeps the options of a `default-server` line for the servers below it.
    fn take_options(&mut self, line: &SourceLine<'_>, kind: Kind) -> Result<(), AllocError> {
        let own = words_after(self.alloc, line.code.as_str(), 1)?;
        let options = if kind == Kind::Defaults {
            &mut self.inherited_options
        } else {
            &mut self.options
        };
        options.push(' ')?;
        options.push_str(own.as_str())?;
        let mut item = Item::new(self.alloc, line.number, line.text, "")?;
        item.fate = Fate::Moved;
        item.notes.push(String::from_str(
            self.alloc,
            "its options are on each server line below it",
        )?)?;
        self.add(item, kind == Kind::Listen)
    }

    /// Adds the lines for a line that does not begin a section.
    fn add_line(&mut self, line: &SourceLine<'_>, kind: Kind) -> Result<(), AllocError> {
        let to_behind = kind == Kind::Listen && is_behind(line);
        let place = if kind == Kind::Global {
            WordPlace::Global
        } else {
            WordPlace::Line
        };
        match line.word(0) {
            "default-server" if kind != Kind::Frontend && kind != Kind::Global => self.take_options(
                line, kind,
            ),
            "server" => {
                let written = server_line(self.alloc, line.code.as_str(), self.options.as_str())?;
                self.add_written(line, written, to_behind)
            }
            "bind" => {
                for written in bind_lines(self.alloc, line.code.as_str())? {
                    self.add_written(line, written, false)?;
                }
                Ok(())
            }
            word => match advice_on(place, word) {
                Some(advice) => {
                    let said = format!(in self.alloc; "`{word}`: {}", advice.sentence)?;
                    self.add_left_out(line, said, advice.concern, to_behind)
                }
                None => {
                    let code = line.code.as_str();
                    let item = Item::new(self.alloc, line.number, line.text, code)?;
                    self.add(item, to_behind)
                }
            },
        }
    }

    /// Notes what a `defaults` section says for those below it.
    fn open_defaults(&mut self, section: &SourceSection<'_>, name: &str) -> Result<(), AllocError> {
        self.defaults = String::from_str(self.alloc, name)?;
        self.inherited_options.clear();
        self.inherits_retries = section.has("retries");
        self.inherits_default = section.has("default_backend");
        self.inherits_limit = section.has("maxconn");
        Ok(())
    }

    /// Adds the line that begins a section. One that takes from its last `defaults` says so without a word.
    fn add_head(
        &mut self,
        section: &SourceSection<'_>,
        line: &SourceLine<'_>,
    ) -> Result<(), AllocError> {
        let name = line.word(1);
        if section.kind == Kind::Defaults {
            self.open_defaults(section, name)?;
        }
        self.options = String::from_str(self.alloc, self.inherited_options.as_str())?;
        let is_of_last = line.word(2) == "from"
            && line.word(3) == self.defaults.as_str()
            && section.kind != Kind::Defaults;
        let code = match section.kind {
            Kind::Listen => format!(in self.alloc; "frontend {name}")?,
            _ if is_of_last => format!(in self.alloc; "{} {name}", line.word(0))?,
            _ => String::from_str(self.alloc, line.code.as_str())?,
        };
        let mut item = Item::new(self.alloc, line.number, line.text, code.as_str())?;
        if section.kind == Kind::Listen {
            item.notes.push(format!(in self.alloc;
                "this listen section is written as a frontend and a backend, both called {name}"
            )?)?;
        }
        self.add(item, false)
    }

    /// Adds what HAProxy does without a line, where `l4proxy` does otherwise.
    fn add_limit(&mut self, section: &SourceSection<'_>) -> Result<(), AllocError> {
        if self.inherits_limit || section.has("maxconn") {
            return Ok(());
        }
        let mut item = Item::new(self.alloc, 0, "", "")?;
        item.notes.push(String::from_str(
            self.alloc,
            "without a maxconn line this frontend takes 2000 connections",
        )?)?;
        self.add(item, false)
    }

    fn add_retries(
        &mut self,
        section: &SourceSection<'_>,
        to_behind: bool,
    ) -> Result<(), AllocError> {
        if self.inherits_retries || section.has("retries") || !section.has("server") {
            return Ok(());
        }
        self.add_new("retries 3", "HAProxy has this without a line", to_behind)
    }

    /// Adds what is still missing of a `listen` section, and the backend behind its frontend.
    fn add_behind(&mut self, section: &SourceSection<'_>, name: &str) -> Result<(), AllocError> {
        if !section.has("server") {
            return self.items.append(&mut self.behind);
        }
        if !self.inherits_default && !section.has("default_backend") {
            let code = format!(in self.alloc; "default_backend {name}")?;
            self.add_new(code.as_str(), "its own servers", false)?;
        }
        self.add_retries(section, true)?;
        let code = format!(in self.alloc; "backend {name}")?;
        self.add_new(
            code.as_str(),
            "the servers of the listen section above",
            false,
        )?;
        self.items.append(&mut self.behind)
    }

    /// Adds a section of which something may be carried over.
    fn add_section(&mut self, section: &SourceSection<'_>) -> Result<(), AllocError> {
        let mut name = "";
        for (number, line) in section.lines.as_slice().iter().enumerate() {
            if number == 0 && section.kind != Kind::Outside {
                name = line.word(1);
                self.add_head(section, line)?;
                if matches!(section.kind, Kind::Frontend | Kind::Listen) {
                    self.add_limit(section)?;
                }
            } else {
                self.add_line(line, section.kind)?;
            }
        }
        match section.kind {
            Kind::Listen => self.add_behind(section, name),
            Kind::Backend => self.add_retries(section, false),
            _ => Ok(()),
        }
    }

    /// Adds a section as comments.
    fn add_left_out_section(
        &mut self,
        section: &SourceSection<'_>,
        said: &str,
        concern: Concern,
    ) -> Result<(), AllocError> {
        for (number, line) in section.lines.as_slice().iter().enumerate() {
            let mut item = Item::new(self.alloc, line.number, line.text, "")?;
            if number == 0 {
                item.leave_out(String::from_str(self.alloc, said)?, concern)?;
            } else if !line.word(0).is_empty() {
                item.fate = Fate::LeftOut;
                item.concern = concern;
            }
            self.add(item, false)?;
        }
        Ok(())
    }

    /// Adds the lines for a section.
    pub fn take(&mut self, section: &SourceSection<'_>) -> Result<(), AllocError> {
        let first = section.lines.as_slice().first();
        let word = match first {
            Some(line) => line.word(0),
            None => "",
        };
        match (section.kind, advice_on(WordPlace::Section, word)) {
            (Kind::Other, Some(advice)) => {
                self.add_left_out_section(section, advice.sentence, advice.concern)
            }
            _ if section.is_http => {
                let is_page = section.has("stats")
                    && !section.has("server")
                    && !section.has("use_backend")
                    && !section.has("default_backend");
                if is_page {
                    self.add_left_out_section(section, STATISTICS, Concern::Process)
                } else {
                    self.add_left_out_section(section, HTTP, Concern::Clients)
                }
            }
            _ => self.add_section(section),
        }
    }
}

/// Why a section of `mode http` is left out.
const HTTP: &str =
    "this section is of mode http, and there is no HTTP here: write it with mode tcp if its servers may speak HTTP with the clients themselves";

/// Why a page of statistics is left out.
const STATISTICS: &str =
    "there is no statistics page: write serve --stats ADDR, which answers GET /metrics";
