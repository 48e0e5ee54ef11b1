//! Packets of IPv4 that hold a UDP datagram.

ghost use Rattle.std.specs.Prelude.{◌≡◌, ◌+◌, ◌<◌, ◌≤◌, ◌++◌, length, IfOk};
ghost use Rattle.capture_file.specs.Checksum.{word_sum};
ghost use Rattle.capture_file.specs.Internet.{HasAddresses, IsPacket, ipv4_checksum, ipv4_header, packet_bytes, pseudo_header, shown_checksum, udp_checksum, udp_header};

use crate::checksum::{complement, sum_of_words};
use crate::journey::{Journey, MOST_BYTES};
use std::alloc::{AllocError, Global};

/// How long the header of a packet is, and that of a UDP datagram.
const IPV4_HEADER: u16 = 20;

const UDP_HEADER: u16 = 8;
/// The number of the protocol UDP.
const UDP: u8 = 17;

/// The sum of the words that are put before a UDP datagram of so many bytes for its checksum alone: those of the addresses,
/// the protocol and the length.
fn pseudo_header_sum(journey: &Journey, count: u16) -> u32
    ensures value { result ≡ word_sum (pseudo_header journey.now count) }
    ensures most { result ≤ 1048576 }
    ensures known { HasAddresses journey.now }
{
    let sender = sum_of_words(&journey.sender.address);
    let receiver = sum_of_words(&journey.receiver.address);
    sender + receiver + u32::from(UDP) + u32::from(count)
}

/// The header of a UDP datagram of so many bytes with this checksum.
fn udp_header_of(journey: &Journey, count: u16, sum: u16) -> [u8; 8]
    ensures { result ≡ udp_header journey.now count sum }
{
    let [a, b] = journey.sender.port.to_be_bytes();
    let [c, d] = journey.receiver.port.to_be_bytes();
    let [e, f] = count.to_be_bytes();
    let [g, h] = sum.to_be_bytes();
    [a, b, c, d, e, f, g, h]
}

/// The header of a packet of so many bytes with this checksum.
fn ipv4_header_of(journey: &Journey, count: u16, sum: u16) -> [u8; 20]
    ensures { result ≡ ipv4_header journey.now count sum }
{
    let [a, b, c, d] = journey.sender.address;
    let [e, f, g, h] = journey.receiver.address;
    let [count_high, count_low] = count.to_be_bytes();
    let [sum_high, sum_low] = sum.to_be_bytes();
    [
        0x45, 0, count_high, count_low, 0, 0, 0x40, 0, 64, UDP, sum_high, sum_low, a, b, c, d, e,
        f, g, h,
    ]
}

/// The checksum of a UDP datagram, as it is sent.
fn udp_checksum_of(journey: &Journey, payload: &[u8]) -> u16
    requires { length payload.now ≤ MOST_BYTES }
    ensures value { result ≡ udp_checksum journey.now payload.now }
    ensures known { HasAddresses journey.now }
{
    let count = UDP_HEADER + payload.len() as u16;
    let pseudo = pseudo_header_sum(journey, count);
    let header = sum_of_words(&udp_header_of(journey, count, 0));
    shown(complement(pseudo + header + sum_of_words(payload)))
}

/// A checksum that comes out as zero is sent as all ones.
fn shown(sum: u16) -> u16
    ensures { result ≡ shown_checksum sum }
{
    if sum == 0 { u16::MAX } else { sum }
}

/// The checksum of the header of a packet of so many bytes.
fn ipv4_checksum_of(journey: &Journey, count: u16) -> u16
    ensures { result ≡ ipv4_checksum journey.now count }
{
    complement(sum_of_words(&ipv4_header_of(journey, count, 0)))
}

/// The packet of IPv4 in which a payload travels as a UDP datagram. It is made for a payload of at most 512 bytes.
pub(crate) fn packet(
    alloc: Global,
    journey: &Journey,
    payload: &[u8],
) -> Result<Vec<u8>, AllocError>
    requires { length payload.now ≤ MOST_BYTES }
    ensures exact { IfOk result (λ bytes. bytes.items ≡ packet_bytes journey.now payload.now) }
    ensures is { IfOk result (λ bytes. IsPacket journey.now payload.now bytes.items) }
{
    let datagram = UDP_HEADER + payload.len() as u16;
    let count = IPV4_HEADER + datagram;
    let mut bytes = Vec::with_capacity(alloc, usize::from(count))?;
    bytes.extend_from_slice(&ipv4_header_of(journey, count, ipv4_checksum_of(journey, count)))?;
    bytes.extend_from_slice(&udp_header_of(journey, datagram, udp_checksum_of(journey, payload)))?;
    bytes.extend_from_slice(payload)?;
    Ok(bytes)
}
