//! Numbers as text and page print them.
ghost use Rattle.std.specs.Prelude.{option_map};
ghost use Rattle.plan_report.specs.AnalysisText.{with_point};

use std::fmt::{self, InlineText};

/// A number whose digits are grouped by three.
#[derive(Drop)]
pub(crate) struct Grouped(pub(crate) u64);

impl fmt::Display for Grouped {
    fn fmt<W: fmt::Write>(&self, f: &mut fmt::Formatter<W>) -> fmt::Result {
        let text = InlineText::<24>::of(self.0);
        let mut left = text.as_str().len();
        for digit in text.as_str().chars() {
            f.write_char(digit)?;
            left = left.saturating_sub(1);
            if left > 0 && left % 3 == 0 {
                f.write_char(',')?;
            }
        }
        Ok(())
    }
}

/// The number of parts in a whole, and the number of their digits.
pub(crate) const HUNDREDTHS: (u64, usize) = (100, 2);

pub(crate) const THOUSANDTHS: (u64, usize) = (1_000, 3);

/// A number of parts of a whole, printed with its decimal point. The text has at least as many characters before the
/// point as the last field says; without one, the digits are grouped, as on the page.
#[derive(Drop)]
pub(crate) struct Decimal(
    pub(crate) u64,
    pub(crate) (u64, usize),
    pub(crate) Option<usize>,
);

impl fmt::Display for Decimal {
    ghost output = { λ number. option_map (λ width. with_point number.1 width number.0) number.2 };

    #[tactic(auto, unfolding(crate::specs::AnalysisText::with_point))]
    fn fmt<W: fmt::Write>(&self, f: &mut fmt::Formatter<W>) -> fmt::Result {
        let (parts, digits) = self.1;
        let (whole, rest) = (self.0 / parts.max(1), self.0 % parts.max(1));
        match self.2 {
            Some(width) => write!(f, "{whole:>width$}.{rest:0digits$}"),
            None => write!(f, "{}.{rest:0digits$}", Grouped(whole)),
        }
    }
}

/// Converts a part of a whole to percent.
pub(crate) fn percent(part: u64, whole: u64) -> Decimal {
    let hundredths = part.saturating_mul(10_000) / whole.max(1);
    Decimal(hundredths, HUNDREDTHS, None)
}
