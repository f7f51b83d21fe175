//! The text of a script in which ports send at their periods.
use crate::schedule::{Flow, LINES_LIMIT, PortTraffic, Sending};
use afdx_plan::Config;
use std::io::{Result, Write};

/// The number of bytes at the beginning of a message that give its number.
const NUMBER_BYTES: usize = 4;

/// 128 zero bytes in hexadecimal, to fill messages.
const ZEROS: [u8; 256] = [b'0'; 256];

/// Writes a script for a number of seconds: the traffic of each port, as comments, and a poll for each millisecond,
/// after the messages that are sent up to it. Writes nothing, and returns false, if it would be longer than a script
/// may be.
pub fn write_script<W: Write>(
    writer: &mut W,
    config: &Config,
    traffic: &[PortTraffic<'_>],
    flows: &[Flow],
    sendings: &[Sending],
    seconds: u64,
) -> Result<bool> {
    let polls = seconds.saturating_mul(1_000).saturating_add(1);
    let lines = config.ports().len().saturating_add(sendings.len());
    if LINES_LIMIT < lines.saturating_add(polls as usize) {
        return Ok(false);
    }
    write_comments(writer, config, traffic, flows)?;
    let mut done = 0;
    for poll in 0..polls {
        let now = 1_000 * poll;
        for sending in sendings.get(done..).unwrap_or(&[]) {
            if now < sending.at {
                break;
            }
            write_sending(writer, config, flows, sending)?;
            done = done.saturating_add(1);
        }
        writeln!(writer, "at {now}")?;
    }
    Ok(true)
}

/// Writes the traffic of each port, as comments.
fn write_comments<W: Write>(
    writer: &mut W,
    config: &Config,
    traffic: &[PortTraffic<'_>],
    flows: &[Flow],
) -> Result<()> {
    for (place, port) in config.ports().iter().enumerate() {
        let id = port.id.0;
        write!(writer, "# port {id}")?;
        match traffic.get(place) {
            Some(traffic) if !traffic.name.is_empty() => write!(writer, ", {}", traffic.name)?,
            _ => {}
        }
        match flows.iter().find(|flow| flow.port == place) {
            Some(flow) => {
                let Flow { first, period, .. } = *flow;
                writeln!(
                    writer,
                    ": {} bytes each {period} us, from {first} us on",
                    port.max
                )?;
            }
            None => writeln!(writer, ": nothing, as it has no period")?,
        }
    }
    Ok(())
}

/// Writes the line of a message: its number, whose low bytes alone are there if it is short, and zeros.
fn write_sending<W: Write>(
    writer: &mut W,
    config: &Config,
    flows: &[Flow],
    sending: &Sending,
) -> Result<()> {
    let Some(flow) = flows.get(sending.flow) else {
        return Ok(());
    };
    let Some(port) = config.ports().get(flow.port) else {
        return Ok(());
    };
    let id = port.id.0;
    write!(writer, "send {id} ")?;
    write_number(writer, number_of(flow, sending.at), port.max)?;
    write_zeros(writer, port.max.saturating_sub(NUMBER_BYTES))?;
    writer.write_all(b"\n")
}

/// Returns the number of the message that a flow sends at a time, from 0.
fn number_of(flow: &Flow, at: u64) -> u64 {
    at.saturating_sub(flow.first)
        .checked_div(flow.period)
        .unwrap_or(0)
}

/// Writes the low bytes of a number: four, or as many as a message has.
fn write_number<W: Write>(writer: &mut W, number: u64, size: usize) -> Result<()> {
    let bytes = number.to_be_bytes();
    for byte in bytes.iter().skip(bytes.len() - size.min(NUMBER_BYTES)) {
        let byte = *byte;
        write!(writer, "{byte:02x}")?;
    }
    Ok(())
}

/// Writes bytes that are zero.
fn write_zeros<W: Write>(writer: &mut W, count: usize) -> Result<()> {
    for _ in 0..count / 128 {
        writer.write_all(&ZEROS)?;
    }
    writer.write_all(&ZEROS[..2 * (count % 128)])
}
