//! The blocks of a capture file.

ghost use Rattle.std.specs.Prelude.{◌≡◌, ◌+◌, ◌<◌, ◌≤◌, ◌++◌, ◌∷◌, [], List, length, replicate, IfOk, OnErr, OnOk};
ghost use Rattle.capture_file.specs.Blocks.{block, enhanced_body, head, interface_body, options, packet_block, padded, section_body};
ghost use Rattle.capture_file.specs.Captures.{IsCapture};
ghost use Rattle.capture_file.specs.Journeys.{Fits, Sent};

use crate::internet::packet;
use crate::journey::{Journey, MOST_BYTES};
use std::alloc::{AllocError, Global};

/// The greatest number of bytes of a packet, and of what is in a block.
const MOST_PACKET: usize = 28 + MOST_BYTES;

const MOST_BODY: usize = 2048;

const SECTION_HEADER: u32 = 0x0A0D_0D0A;

const INTERFACE_DESCRIPTION: u32 = 1;

const ENHANCED_PACKET: u32 = 6;

/// It tells a reader in which order the bytes of numbers stand.
const MAGIC: u32 = 0x1A2B_3C4D;
/// Packets begin with their header of IPv4.
const LINK_TYPE_IPV4: u16 = 228;

const COMMENT: u16 = 1;

/// Adds so many zeros.
#[tactic(auto, using(crate::proofs::Files::zeros_taken))]
fn push_zeros(file: &mut Vec<u8>, count: usize) -> Result<(), AllocError>
    requires { count ≤ 3 }
    ensures { OnOk result (file.new.items ≡ file.old.items ++ replicate count 0) }
{
    file.extend_from_slice(&[0; 3][..count])?;
    Ok(())
}

/// Adds bytes, and zeros behind them up to a multiple of 4.
fn push_padded(file: &mut Vec<u8>, bytes: &[u8]) -> Result<(), AllocError>
    ensures { OnOk result (file.new.items ≡ file.old.items ++ padded bytes.now) }
{
    file.extend_from_slice(bytes)?;
    push_zeros(file, (4 - bytes.len() % 4) % 4)?;
    Ok(())
}

/// Adds the options of a packet with a comment, none where that is empty.
fn push_options(body: &mut Vec<u8>, comment: &[u8]) -> Result<(), AllocError>
    requires { length comment.now ≤ MOST_BYTES }
    ensures { OnOk result (body.new.items ≡ body.old.items ++ options comment.now) }
{
    if comment.is_empty() {
        return Ok(());
    }
    body.extend_from_slice(&COMMENT.to_le_bytes())?;
    body.extend_from_slice(&(comment.len() as u16).to_le_bytes())?;
    push_padded(body, comment)?;
    body.extend_from_slice(&[0; 4])?;
    Ok(())
}

/// What is in the block of a packet.
fn packet_body(
    alloc: Global,
    time: u64,
    packet: &[u8],
    comment: &[u8],
) -> Result<Vec<u8>, AllocError>
    requires packet { length packet.now ≤ MOST_PACKET }
    requires comment { length comment.now ≤ MOST_BYTES }
    ensures value { IfOk result (λ body. body.items ≡ enhanced_body time packet.now comment.now) }
{
    let count = (packet.len() as u32).to_le_bytes();
    let mut body = Vec::new(alloc);
    body.extend_from_slice(&0u32.to_le_bytes())?;
    body.extend_from_slice(&((time / (1 << 32)) as u32).to_le_bytes())?;
    body.extend_from_slice(&((time % (1 << 32)) as u32).to_le_bytes())?;
    body.extend_from_slice(&count)?;
    body.extend_from_slice(&count)?;
    push_padded(&mut body, packet)?;
    push_options(&mut body, comment)?;
    Ok(body)
}

/// Adds a block.
#[tactic(auto, unfolding(crate::specs::Blocks::block))]
fn push_block(file: &mut Vec<u8>, kind: u32, body: &[u8]) -> Result<(), AllocError>
    requires { length body.now ≤ MOST_BODY }
    ensures { OnOk result (file.new.items ≡ file.old.items ++ block kind body.now) }
{
    let count = (body.len() as u32 + 12).to_le_bytes();
    file.extend_from_slice(&kind.to_le_bytes())?;
    file.extend_from_slice(&count)?;
    file.extend_from_slice(body)?;
    file.extend_from_slice(&count)?;
    Ok(())
}

/// What is in the section header.
fn section_body_of(alloc: Global) -> Result<Vec<u8>, AllocError>
    ensures { IfOk result (λ body. body.items ≡ section_body) }
{
    let mut body = Vec::new(alloc);
    body.extend_from_slice(&MAGIC.to_le_bytes())?;
    body.extend_from_slice(&1u16.to_le_bytes())?;
    body.extend_from_slice(&0u16.to_le_bytes())?;
    body.extend_from_slice(&[255; 8])?;
    Ok(body)
}

/// What is in the description of the interface.
fn interface_body_of(alloc: Global) -> Result<Vec<u8>, AllocError>
    ensures { IfOk result (λ body. body.items ≡ interface_body) }
{
    let mut body = Vec::new(alloc);
    body.extend_from_slice(&LINK_TYPE_IPV4.to_le_bytes())?;
    body.extend_from_slice(&0u16.to_le_bytes())?;
    body.extend_from_slice(&0u32.to_le_bytes())?;
    Ok(body)
}

/// The bytes with which a capture begins. They are a capture of no datagram.
pub fn begin(alloc: Global) -> Result<Vec<u8>, AllocError>
    ensures exact { IfOk result (λ file. file.items ≡ head) }
    ensures is { IfOk result (λ file. IsCapture [] file.items) }
{
    let mut file = Vec::new(alloc);
    push_block(&mut file, SECTION_HEADER, &section_body_of(alloc)?)?;
    push_block(&mut file, INTERFACE_DESCRIPTION, &interface_body_of(alloc)?)?;
    Ok(file)
}

/// Adds a datagram to a capture, with a comment where that isn't empty. What was a capture of some datagrams is then one of
/// these and this one. A payload has at most 512 bytes, and so has a comment. Where memory is lacking, the file stays as it
/// is.
pub fn push_datagram(
    alloc: Global,
    file: &mut Vec<u8>,
    journey: &Journey,
    payload: &[u8],
    comment: &str,
) -> Result<(), AllocError>
    requires { Fits payload.now comment.now }
    ensures exact { OnOk result (file.new.items ≡ file.old.items ++ packet_block (record { journey = journey.now; payload = payload.now; comment = comment.now })) }
    ensures is { OnOk result ((sent : List Sent) → IsCapture sent file.old.items → IsCapture (sent ++ record { journey = journey.now; payload = payload.now; comment = comment.now } ∷ []) file.new.items) }
    ensures left { OnErr result (file.new.items ≡ file.old.items) }
{
    let packet = packet(alloc, journey, payload)?;
    let body = packet_body(alloc, journey.time, &packet, comment.as_bytes())?;
    let mut block = Vec::new(alloc);
    push_block(&mut block, ENHANCED_PACKET, &body)?;
    file.extend_from_slice(&block)?;
    Ok(())
}
