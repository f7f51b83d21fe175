//! The command `compile`.
use crate::files::{buffered, create, open_plan, written};
use crate::stop::Stop;
use bench_words::End;
use plan_table::write_table;
use std::io::{self, Write};

// The number of bytes of a table in a line of C.
const LINE: usize = 12;

// The text before the bytes in a file of C, and the text after them.
const FRONT: &str =
    "/* The table of a plan, made by afdx_bench compile. */\n#include <stddef.h>\n#include <stdint.h>\n\n\
    extern const uint8_t afdx_plan_table[];\nextern const size_t afdx_plan_table_length;\n\n\
    const uint8_t afdx_plan_table[] = {";

const BACK: &str = "\n};\nconst size_t afdx_plan_table_length = sizeof afdx_plan_table;\n";

/// Writes the table of a plan; or, if a file is named, a file of C that has it.
pub fn compile<'a, W: Write>(
    rt: &HostRuntime,
    path: &'a str,
    source: &'a Option<String>,
    writer: &mut W,
) -> Result<End, Stop<'a>> {
    let alloc = rt.alloc();
    let (text, plan) = open_plan(rt, path)?;
    let table = write_table(alloc, &plan)?;
    let (Some(name), Some(file)) = (source, create(rt, source, &[&text])?) else {
        writer.write_all(table.as_slice())?;
        return Ok(End::Told);
    };
    let mut output = buffered(alloc, file)?;
    written(write_source(&mut output, table.as_slice()), name.as_str())?;
    written(output.flush(), name.as_str())?;
    Ok(End::Told)
}

/// Writes a file of C with the array `afdx_plan_table`, and its length.
fn write_source<W: Write>(writer: &mut W, table: &[u8]) -> io::Result<()> {
    writer.write_all(FRONT.as_bytes())?;
    for (k, byte) in table.iter().enumerate() {
        let before = if k % LINE == 0 { "\n    " } else { " " };
        write!(writer, "{before}0x{byte:02x},")?;
    }
    writer.write_all(BACK.as_bytes())
}
