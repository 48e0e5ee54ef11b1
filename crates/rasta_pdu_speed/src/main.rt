// Writes, reads or digests as often as it is told, for a script that times it: `rasta_pdu_speed WORK SIZE TIMES`. WORK is
//
// - `write`, `both` (write, then read), `digest` (MD4 alone over the bytes before the code): TIMES passes over a data PDU with
//   SIZE items;
// - `md4`: MD4 over a buffer of SIZE mebibytes, once and then TIMES times more.
//
// Each pass needs the one before it, so none can be left out.
#![tactic(auto)]

mod digests;
mod passes;

use crate::digests::digest_again;
use crate::passes::{data_of, digested, written, written_and_read};
use anyhow::{Context, bail};
use std::env;

const MEBIBYTE: usize = 1 << 20;

// What the buffer is filled with: any byte would do.
const FILLING: u8 = 0x5a;

fn main(rt: HostRuntime) -> anyhow::Result<()> {
    let mut args = env::args(&rt)?.skip(1);
    let (Some(work), Some(size), Some(times)) = (args.next(), args.next(), args.next()) else {
        bail!("usage: rasta_pdu_speed WORK SIZE TIMES");
    };
    let (size, times): (u16, u32) = (size.parse()?, times.parse()?);
    if work.as_str() == "md4" {
        tell_digest(&rt, usize::from(size), times)
    } else {
        let last = last_number(work.as_str(), usize::from(size), times)?;
        println!(rt; "{last}")?;
        Ok(())
    }
}

/// The number that so many passes over a PDU leave.
fn last_number(work: &str, items: usize, times: u32) -> anyhow::Result<u32> {
    let pdu = data_of(items).context("1 to 3 items")?;
    match work {
        "write" => Ok(written(pdu, times)),
        "both" => Ok(written_and_read(pdu, times)),
        "digest" => Ok(digested(&pdu, times)),
        _ => bail!("WORK is write, both, digest or md4"),
    }
}

/// Prints the last of the digests of a buffer.
fn tell_digest(rt: &HostRuntime, mebibytes: usize, more: u32) -> anyhow::Result<()> {
    let buffer = vec![in rt.alloc(); FILLING; mebibytes.saturating_mul(MEBIBYTE)]?;
    let digest = digest_again(&buffer, more);
    println!(rt; "{}", hex::encode(rt.alloc(), &digest)?)?;
    Ok(())
}
