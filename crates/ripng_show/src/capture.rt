//! `show --pcap`: the datagrams of RIPng in a capture, each as lines of text.

use crate::judged::judged;
use crate::print_fault::PrintFault;
use crate::showing::write_listing;
use ripng_capture::{CaptureError, Foreign, Frame, Frames, Packet, packet_in};
use router_core::RIPNG_PORT;
use std::alloc::Global;
use std::io::{self, Write};

/// How many frames of a capture were read, by what they hold.
#[derive(Clone, Copy)]
struct Counts {
    frames: usize,
    /// Those with a datagram of RIPng.
    datagrams: usize,
    /// Those that end before their packet does.
    short: usize,
}

/// Writes the lines of each datagram of UDP over IPv6 in the bytes of a capture that comes from port 521 or goes to it, in the order of
/// the file: a line with its frame, time, interface, addresses, ports and hop limit, and then its entries as [`show`](crate::show)
/// writes them, or `refused NUMBER NAME`. A line at the end counts the frames. If the capture is damaged, a last line says where and how;
/// what stands before is written all the same. The result says whether it is read to its end.
///
/// # Errors
/// `OutOfMemory`, and `Write` if `out` failed.
pub fn show_capture<W: Write>(alloc: Global, file: &[u8], out: &mut W) -> Result<bool, PrintFault> {
    let mut counts = Counts {
        frames: 0,
        datagrams: 0,
        short: 0,
    };
    let frames = match Frames::new(alloc, file) {
        Ok(frames) => frames,
        Err(error) => return write_end(out, counts, Some(error)),
    };
    for frame in frames {
        match frame {
            Ok(frame) => counts = write_frame(out, counts, &frame)?,
            Err(error) => return write_end(out, counts, Some(error)),
        }
    }
    write_end(out, counts, None)
}

/// Writes how many frames there were, and what is wrong behind them, if anything is.
fn write_end<W: Write>(
    out: &mut W,
    counts: Counts,
    error: Option<CaptureError>,
) -> Result<bool, PrintFault> {
    if error == Some(CaptureError::OutOfMemory) {
        return Err(PrintFault::OutOfMemory);
    }
    let Counts {
        frames,
        datagrams,
        short,
    } = counts;
    writeln!(out, "frames {frames} ripng {datagrams} short {short}")?;
    if let Some(error) = error {
        writeln!(out, "{error}")?;
    }
    Ok(error.is_none())
}

/// Writes the datagram of a frame, if it has one of RIPng, and counts the frame.
fn write_frame<W: Write>(out: &mut W, counts: Counts, frame: &Frame<'_>) -> io::Result<Counts> {
    let mut counts = counts;
    counts.frames = counts.frames.saturating_add(1);
    match packet_in(frame.interface.link_type, frame.bytes) {
        Ok(packet) if is_ripng(&packet) => {
            counts.datagrams = counts.datagrams.saturating_add(1);
            write_head(out, counts.frames, frame, &packet)?;
            write_packet(out, &packet)?;
        }
        Err(Foreign::Short) => counts.short = counts.short.saturating_add(1),
        _ => {}
    }
    Ok(counts)
}

/// Whether a packet is of RIPng: it comes from its port, or goes there.
fn is_ripng(packet: &Packet<'_>) -> bool {
    packet.source_port == RIPNG_PORT || packet.destination_port == RIPNG_PORT
}

/// Writes the line with what stands around a datagram.
fn write_head<W: Write>(
    out: &mut W,
    number: usize,
    frame: &Frame<'_>,
    packet: &Packet<'_>,
) -> io::Result<()> {
    let (time, iface) = (frame.at, frame.number);
    write!(out, "frame {number} time {time} iface {iface} ")?;
    let (source, port) = (packet.source, packet.source_port);
    write!(out, "from {source} {port} ")?;
    let (destination, port) = (packet.destination, packet.destination_port);
    writeln!(out, "to {destination} {port} hops {}", packet.hop_limit)
}

/// Writes the entries of a datagram, or why a router would refuse it.
fn write_packet<W: Write>(out: &mut W, packet: &Packet<'_>) -> io::Result<()> {
    match judged(packet) {
        Ok(datagram) => write_listing(out, &datagram),
        Err(fault) => writeln!(out, "refused {fault}"),
    }
}
