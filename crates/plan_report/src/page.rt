//! The page of a report: one self-contained HTML file.
use crate::assessment::Assessment;
use crate::flow::write_flow;
use crate::html::{Escaped, Time};
use crate::page_loads::{write_links, write_memory, write_networks};
use crate::page_waits::write_waits;
use crate::queues::write_queue_table;
use crate::time_line::write_time_line;
use afdx_plan::Config;
use std::io::{self, Write};

/// The program's version, which is the library's: `AFDX_VERSION` in `afdx.h`.
pub const VERSION: &str = "2.1.0";

/// A plan, and the SHA-256 digest of its text.
#[derive(Drop)]
pub struct Digested {
    pub config: Config,
    pub digest: [u8; 32],
}

/// Writes a report as a page: the verdict, the numbers of the text, and pictures of them. The page names the file of
/// the plan and the date of the run, if there is one; both are escaped.
pub fn write_page<W: Write>(
    writer: &mut W,
    plan: &Digested,
    assessment: &Assessment<'_>,
    file: &str,
    date: &Option<String>,
) -> io::Result<()> {
    let config = &plan.config;
    write_head(writer, "End system", config.end_system(), ": ", file)?;
    write_verdict(writer, assessment)?;
    write_origin(writer, &plan.digest, file, date)?;
    let lateness = Time::of_micros(assessment.analysis.lateness);
    writeln!(
        writer,
        "<dt>polls<dd>up to <span id=\"lateness\">{lateness}</span> after the end of a BAG\n</dl>"
    )?;
    write_networks(writer, assessment.analysis)?;
    write_waits(writer, assessment)?;
    if assessment.has_traffic() {
        write_queue_table(writer, assessment)?;
    }
    write_time_line(writer, config, assessment)?;
    write_links(writer, assessment.analysis.links.as_slice())?;
    write_memory(writer, &assessment.analysis.memory)?;
    write_flow(writer, config)?;
    writer.write_all(b"</body>\n</html>\n")
}

/// Writes the head of a page on something of an end system. Its title ends with `mark` and the name of a file.
pub fn write_head<W: Write>(
    writer: &mut W,
    what: &str,
    id: u16,
    mark: &str,
    file: &str,
) -> io::Result<()> {
    let file = Escaped(file);
    write!(
        writer,
        "<!DOCTYPE html>\n<html lang=\"en\">\n<head>\n<meta charset=\"utf-8\">\n\
        <meta name=\"viewport\" content=\"width=device-width,initial-scale=1\">\n\
        <title>{what} {id}{mark}{file}</title>\n<style>{STYLE}</style>\n</head>\n<body>\n\
        <h1>{what} <span id=\"end-system\">{id}</span></h1>\n"
    )
}

fn write_verdict<W: Write>(writer: &mut W, assessment: &Assessment<'_>) -> io::Result<()> {
    writer.write_all(b"<ul id=\"verdict\">\n")?;
    for sentence in assessment.verdict() {
        let class = match sentence.is_kept() {
            Some(true) => " class=\"kept\"",
            Some(false) => " class=\"over\"",
            None => "",
        };
        writeln!(writer, "<li{class}>{sentence}")?;
    }
    writer.write_all(b"</ul>\n")
}

/// Writes the origin of the numbers.
fn write_origin<W: Write>(
    writer: &mut W,
    digest: &[u8; 32],
    file: &str,
    date: &Option<String>,
) -> io::Result<()> {
    let file = Escaped(file);
    write!(
        writer,
        "<dl>\n<dt>plan<dd id=\"plan\">{file}\n<dt>SHA-256<dd id=\"digest\">"
    )?;
    for byte in digest {
        write!(writer, "{byte:02x}")?;
    }
    writeln!(
        writer,
        "\n<dt>program<dd id=\"version\">afdx_bench {VERSION}"
    )?;
    if let Some(date) = date {
        writeln!(writer, "<dt>date<dd id=\"date\">{}", Escaped(date.as_str()))?;
    }
    Ok(())
}

/// The style of the page, for light and dark color schemes, narrow screens and print.
const STYLE: &str = "
:root{color-scheme:light dark;--back:#fff;--text:#1b1f24;--quiet:#57606a;--line:#d8dee4;--one:#2f6fab;--two:#86b6e0;--over:#b3361f;--kept:#1a7f37;--mark:#d1351b}
@media(prefers-color-scheme:dark){:root{--back:#12161b;--text:#e6edf3;--quiet:#9aa4ae;--line:#2d333b;--one:#5aa2e0;--two:#2f6ea6;--over:#ff7b6b;--kept:#56d364;--mark:#ff7b6b}}
*{box-sizing:border-box}
body{margin:0 auto;max-width:72rem;padding:1rem;font:15px/1.5 system-ui,sans-serif;background:var(--back);color:var(--text)}
h1{font-size:1.4rem;margin:.5rem 0}h2{font-size:1.1rem;margin:2rem 0 .5rem}p{color:var(--quiet);margin:.3rem 0;max-width:46rem}
#verdict{list-style:none;margin:.5rem 0;padding:0;display:flex;flex-wrap:wrap;gap:.3rem 1.5rem;font-weight:600}
.kept{color:var(--kept)}.over{color:var(--over);font-weight:600}.kept::before{content:\"\\2713\\a0\"}
.over::before{content:\"\\2715\\a0\"}dl{display:grid;grid-template-columns:max-content 1fr;gap:.1rem 1rem;margin:.5rem 0}
pre{white-space:pre-wrap;font-size:12px}dt{color:var(--quiet)}dd{margin:0;overflow-wrap:anywhere}
table{border-collapse:collapse;width:100%;font-size:13px;font-variant-numeric:tabular-nums}
th,td{padding:.2rem .35rem;text-align:right;border-bottom:1px solid var(--line);white-space:nowrap}
th{color:var(--quiet);font-weight:600;vertical-align:bottom}thead{position:sticky;top:0;background:var(--back)}
.name{text-align:left;white-space:normal;overflow-wrap:break-word;min-width:7rem;max-width:12rem}
th:first-child,td:first-child{text-align:left}.bar{width:30%;text-align:left}
svg{display:block;width:100%;height:.9rem;print-color-adjust:exact;-webkit-print-color-adjust:exact}td>svg{min-width:8rem}
#ports td svg{background:repeating-linear-gradient(to right,var(--line) 0 1px,transparent 1px calc(100%/var(--decades)))}
.axis text{font-size:11px;fill:var(--quiet)}.track{fill:var(--line)}.one{fill:var(--one)}.two{fill:var(--two)}
.mark{fill:var(--mark);stroke:var(--back);stroke-width:2px;vector-effect:non-scaling-stroke;paint-order:stroke}
figure{margin:.6rem 0}figure>svg{height:1.6rem}figure .axis{height:1rem}figure .axis text{text-anchor:end}
figcaption{display:flex;flex-wrap:wrap;gap:.2rem 1.2rem;margin-top:.3rem;font-size:13px}
figcaption svg{display:inline-block;width:.8rem;height:.8rem;margin-right:.4rem;vertical-align:-.1rem}
.flow{max-width:44rem;font-size:12px;font-variant-numeric:tabular-nums}
.flow text{text-anchor:middle;dominant-baseline:central;fill:var(--text)}.flow line{stroke-width:1.5px}
line.one{stroke:var(--one)}line.two{stroke:var(--two)}
@media print{body{padding:0;font-size:12px}table{font-size:8.5px}.axis text{font-size:7px}thead{position:static}tr,figure{break-inside:avoid}h2{break-after:avoid}td>svg{min-width:5rem}
.name{min-width:4rem}.flow{max-width:none}}
@media screen and (max-width:74rem){table{font-size:12px}table,thead,tbody{display:block}
th,td{border:0;padding:.1rem;white-space:normal;overflow-wrap:anywhere}tr{display:grid;align-items:end;border-bottom:1px solid var(--line);padding:.15rem 0}
.bar{grid-column:1/-1;width:auto}.name{min-width:0;max-width:none}th:empty{display:none}
#networks tr{grid-template-columns:2fr 3fr 2fr 3fr}#networks td:nth-child(4){order:1}#networks td:last-child{order:2}
.judged tr{grid-template-columns:repeat(6,1fr)}
#memory tr{grid-template-columns:repeat(7,1fr)}
#queues tr{grid-template-columns:repeat(5,1fr)}
#links tr{grid-template-columns:9fr 11fr 9fr 7fr 7fr 18fr 9fr 16fr}
.without tr{grid-template-columns:5fr 5fr 5fr 8fr 8fr 9fr}.with tr{grid-template-columns:repeat(4,minmax(0,1fr))}
.with td:first-child,.with th:first-child,.with .name,.with td:nth-child(11),.with th:nth-child(11){grid-row:1}
.with td:nth-child(11),.with th:nth-child(11){grid-column:3/-1}}
@media screen and (max-width:30rem){table{font-size:10.5px}}
";
