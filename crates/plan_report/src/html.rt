//! Texts and numbers of the page, and its bars as SVG.
use crate::numbers::Decimal;
use std::fmt::{self, InlineText};
use std::io::{self, Write};

/// The width of a drawing.
pub(crate) const WIDTH: u64 = 10_000;

/// The width of a mark.
const MARK: u64 = 50;

/// The begin of a drawing.
pub(crate) const DRAWING: &str =
    "<svg viewBox=\"0 0 10000 100\" preserveAspectRatio=\"none\" aria-hidden=\"true\">";

/// A text from outside, with the characters of HTML escaped.
#[derive(Drop)]
pub struct Escaped<'a>(pub &'a str);

impl fmt::Display for Escaped<'_> {
    fn fmt<W: fmt::Write>(&self, f: &mut fmt::Formatter<W>) -> fmt::Result {
        for c in self.0.chars() {
            match c {
                '&' => f.write_str("&amp;")?,
                '<' => f.write_str("&lt;")?,
                '>' => f.write_str("&gt;")?,
                '"' => f.write_str("&quot;")?,
                c if c.is_control() => f.write_str("\u{fffd}")?,
                c => f.write_char(c)?,
            }
        }
        Ok(())
    }
}

/// A time in nanoseconds, printed in the greatest unit that it fills.
#[derive(Clone, Copy)]
pub(crate) struct Time(pub(crate) u64);

impl Time {
    /// Converts a time in microseconds.
    pub(crate) fn of_micros(micros: u64) -> Time {
        Time(micros.saturating_mul(1_000))
    }
}

impl fmt::Display for Time {
    fn fmt<W: fmt::Write>(&self, f: &mut fmt::Formatter<W>) -> fmt::Result {
        let (unit, name) = match self.0 {
            1..=999 => ((1, 0), "ns"),
            0..=999_999 => ((1_000, 3), "µs"),
            1_000_000..=999_999_999 => ((1_000_000, 6), "ms"),
            _ => ((1_000_000_000, 9), "s"),
        };
        let text = InlineText::<32>::of(Decimal(self.0, unit, None));
        let number = text.as_str().trim_end_matches('0').trim_end_matches('.');
        write!(f, "{number}\u{a0}{name}")
    }
}

/// A number, or else a text.
#[derive(Clone, Copy)]
pub struct Cell<T>(pub Option<T>, pub &'static str);

impl<T: fmt::Display> fmt::Display for Cell<T> {
    fn fmt<W: fmt::Write>(&self, f: &mut fmt::Formatter<W>) -> fmt::Result {
        match &self.0 {
            Some(number) => fmt::Display::fmt(number, f),
            None => f.pad(self.1),
        }
    }
}

/// Returns the cell of a time in microseconds, with a dash if there is none.
pub(crate) fn micros(micros: Option<u64>) -> Cell<Time> {
    Cell(micros.map(Time::of_micros), "–")
}

/// Returns the position of a value in the drawing of a bar that `scale` fills.
pub(crate) fn place(scale: u64, value: u64) -> u64 {
    value.min(scale).saturating_mul(WIDTH) / scale.max(1)
}

/// A rectangle of the height of a drawing: its class, which gives its color, its start and its width.
#[derive(Drop)]
pub(crate) struct Rect(pub(crate) &'static str, pub(crate) u64, pub(crate) u64);

/// Returns the mark of a limit at a position.
pub(crate) fn mark(place: u64) -> Rect {
    Rect("mark", place.saturating_sub(MARK), MARK)
}

impl fmt::Display for Rect {
    fn fmt<W: fmt::Write>(&self, f: &mut fmt::Formatter<W>) -> fmt::Result {
        let Rect(class, start, width) = self;
        write!(
            f,
            "<rect class=\"{class}\" x=\"{start}\" width=\"{width}\" height=\"100\"/>"
        )
    }
}

/// A bar of several parts with the mark of a limit. Scale, limit and parts are in one unit.
#[derive(Drop)]
pub struct Parts {
    // the value that fills the bar
    scale: u64,
    limit: u64,
    filled: u64,
    // true if the next part has the second color
    second: bool,
}

impl Parts {
    /// Begins a bar without parts.
    pub fn begin<W: Write>(writer: &mut W, scale: u64, limit: u64) -> io::Result<Parts> {
        let track = Rect("track", 0, WIDTH);
        write!(writer, "{DRAWING}{track}")?;
        Ok(Parts {
            scale,
            limit,
            filled: 0,
            second: false,
        })
    }

    /// Adds a part. Neighbouring parts differ in color.
    pub fn fill<W: Write>(&mut self, writer: &mut W, value: u64) -> io::Result<()> {
        let start = place(self.scale, self.filled);
        self.filled = self.filled.saturating_add(value);
        let width = place(self.scale, self.filled).saturating_sub(start);
        let rect = Rect(if self.second { "two" } else { "one" }, start, width);
        self.second = !self.second;
        write!(writer, "{rect}")
    }

    /// Ends the bar.
    pub fn end<W: Write>(self, writer: &mut W) -> io::Result<()> {
        let mark = mark(place(self.scale, self.limit));
        write!(writer, "{mark}</svg>")
    }
}
