//! A page of samples, in the text format of Prometheus (`https://prometheus.io/docs/instrumenting/exposition_formats/`).
use std::alloc::AllocError;
use text_core::decimal::{append_decimal, write_decimal};

/// How a page is written.
#[derive(Clone, Copy, Debug, PartialEq, Eq)]
pub(crate) enum Style {
    /// With lines of help and type before the samples of a name.
    Metrics,
    /// Samples alone, each after the name of the program.
    Status,
}

/// What kind of number a name has.
#[derive(Clone, Copy, Debug, PartialEq, Eq)]
pub(crate) enum Kind {
    /// It rises, and is 0 at the start.
    Counter,
    Gauge,
}

/// A label of a sample. Its value has letters, digits and `-`, `_`, `.` or `:` only, so nothing in it needs an escape.
#[derive(Clone, Copy, Debug)]
pub(crate) struct Label<'a> {
    name: &'a [u8],
    value: &'a [u8],
}

impl<'a> Label<'a> {
    pub(crate) fn of(name: &'a [u8], value: &'a [u8]) -> Label<'a> {
        Label { name, value }
    }
}

/// A page that is being written. After an error its text is not whole.
#[derive(Drop)]
pub(crate) struct Page<'a> {
    out: &'a mut Vec<u8>,
    style: Style,
    /// The name of the samples that come next.
    name: &'static [u8],
}

impl<'a> Page<'a> {
    pub(crate) fn new(out: &'a mut Vec<u8>, style: Style) -> Page<'a> {
        Page {
            out,
            style,
            name: b"",
        }
    }

    fn put(&mut self, text: &[u8]) -> Result<(), AllocError> {
        self.out.extend_from_slice(text)
    }

    /// From here on samples have that name.
    pub(crate) fn begin(
        &mut self,
        name: &'static [u8],
        kind: Kind,
        help: &[u8],
    ) -> Result<(), AllocError> {
        self.name = name;
        if self.style == Style::Status {
            return Ok(());
        }
        self.put(b"# HELP ")?;
        self.put(name)?;
        self.put(b" ")?;
        self.put(help)?;
        self.put(b"\n# TYPE ")?;
        self.put(name)?;
        match kind {
            Kind::Counter => self.put(b" counter\n"),
            Kind::Gauge => self.put(b" gauge\n"),
        }
    }

    /// The front of a sample, up to its number.
    fn begin_sample(&mut self, labels: &[Label<'_>]) -> Result<(), AllocError> {
        if self.style == Style::Status {
            self.put(b"l4proxy: ")?;
        }
        self.put(self.name)?;
        for (place, label) in labels.iter().enumerate() {
            if place == 0 {
                self.put(b"{")?;
            } else {
                self.put(b",")?;
            }
            self.put(label.name)?;
            self.put(b"=\"")?;
            self.put(label.value)?;
            self.put(b"\"")?;
        }
        if labels.is_empty() {
            self.put(b" ")
        } else {
            self.put(b"} ")
        }
    }

    pub(crate) fn sample(&mut self, labels: &[Label<'_>], number: u64) -> Result<(), AllocError> {
        self.begin_sample(labels)?;
        append_decimal(self.out, number)?;
        self.put(b"\n")
    }

    /// A sample of a cause, with a line of the configuration.
    pub(crate) fn line_sample(
        &mut self,
        cause: Label<'_>,
        line: u32,
        number: u64,
    ) -> Result<(), AllocError> {
        let digits = write_decimal(u64::from(line));
        let line = Label::of(b"line", digits.as_str().as_bytes());
        self.sample(&[cause, line], number)
    }

    /// A sample of seconds, from ms.
    pub(crate) fn seconds_sample(&mut self, ms: u64) -> Result<(), AllocError> {
        self.begin_sample(&[])?;
        append_decimal(self.out, ms / 1_000)?;
        self.put(b".")?;
        let rest = ms % 1_000;
        if rest < 100 {
            self.put(b"0")?;
        }
        if rest < 10 {
            self.put(b"0")?;
        }
        append_decimal(self.out, rest)?;
        self.put(b"\n")
    }
}
