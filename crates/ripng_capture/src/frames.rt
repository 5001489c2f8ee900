//! A capture, read frame by frame.

ghost use Rattle.std.specs.Prelude.{◌≡◌, ◌≤◌, ◌<◌, ℕ, List, None, IfErr, IfOk, IfSome, OnOk, length};
ghost use Rattle.std.specs.Iterator.{at_most};
ghost use Rattle.ripng_capture.specs.Found.{IsTail, StandsIn};
ghost use Rattle.ripng_capture.specs.Layout.{beginning_fault};
ghost use Rattle.ripng_capture.specs.Reading.{GivesFrame, HasFrame, IsPartOf, IsRefused};

use crate::beginning::{Form, beginning_of};
use crate::blocks::{INTERFACE, PACKET, SECTION};
use crate::damage::{CaptureError, Damage};
use crate::interface::{Interface, Timestamp};
use crate::layout::{
    block_of, captured_of, interface_of, order_of, record_of, section_begins, simple_of, time_of,
    version_of,
};
use crate::number::{Endianness, behind};
use std::alloc::Global;
use std::marker::Model;

/// The type of a block with a packet of an earlier version of pcapng.
const OLD_PACKET: u32 = 2;

/// The type of a block with a packet of the first interface, without a time.
const SIMPLE_PACKET: u32 = 3;

/// A frame as it stands in a file.
#[derive(Clone, Copy)]
pub struct Frame<'a> {
    /// When it was captured.
    pub at: Timestamp,
    /// The number of its interface, from 0.
    pub number: u32,
    /// That interface.
    pub interface: Interface<'a>,
    /// Its bytes. A capture may have only the first ones.
    pub bytes: &'a [u8],
}

/// The frames of a capture, in the order of the file. Behind an error there is nothing more.
#[derive(Drop)]
pub struct Frames<'a> {
    /// The length of the whole file, in bytes.
    file_len: usize,
    left: &'a [u8],
    form: Form<'a>,
    /// The order of the bytes of the section, of pcapng.
    order: Endianness,
    /// The interfaces of the section, of pcapng.
    interfaces: Vec<Interface<'a>>,
}

impl<'a> Model for Frames<'a> {
    // What is left.
    ghost Value = { List ℕ };

    ghost view = { λ frames. frames.left.now };

    ghost invariant = { λ frames. length frames.left.now ≤ frames.file_len };
}

/// What a block or a record has.
enum Part<'a> {
    Frame(Frame<'a>),
    Interface(Interface<'a>),
    Other,
}

impl<'a> Frames<'a> {
    /// The frames of the bytes of a file.
    ///
    /// # Errors
    /// It is no capture.
    pub fn new(alloc: Global, file: &'a [u8]) -> Result<Frames<'a>, CaptureError>
        ensures rest { IfOk result (λ frames. IsTail file.now frames) }
        ensures taken { OnOk result (beginning_fault file.now ≡ None) }
        ensures refused { IfErr result (IsRefused file.now) }
    {
        let (form, header_len) = match beginning_of(file) {
            Ok(parts) => parts,
            Err(damage) => return Err(CaptureError::Damaged { at: 0, damage }),
        };
        Ok(Frames {
            file_len: file.len(),
            left: behind(file, header_len),
            form,
            order: Endianness::Big,
            interfaces: Vec::new(alloc),
        })
    }

    /// Reads a block or a record: its frame, if it has one.
    fn step(&mut self) -> Result<Option<Frame<'a>>, CaptureError>
        ensures nearer { OnOk result (length self.new < length self.old) }
        ensures frame { IfOk result (λ found. IfSome found (λ f. StandsIn self.old f.bytes.now)) }
        ensures rest { OnOk result (IsTail self.old self.new) }
    {
        let at = self.file_len - self.left.len();
        let part = match self.form {
            Form::Pcap(order, interface) => self.record(order, interface),
            Form::Pcapng => self.block(),
        };
        match part {
            Ok(Part::Frame(frame)) => Ok(Some(frame)),
            Ok(Part::Interface(interface)) => {
                self.interfaces
                    .push(interface)
                    .map_err(|_| CaptureError::OutOfMemory)?;
                Ok(None)
            }
            Ok(Part::Other) => Ok(None),
            Err(damage) => Err(CaptureError::Damaged { at, damage }),
        }
    }

    /// Reads a record of pcap.
    fn record(&mut self, order: Endianness, interface: Interface<'a>) -> Result<Part<'a>, Damage>
        ensures nearer { OnOk result (length self.new < length self.old) }
        ensures part { IfOk result (HasFrame self.old) }
        ensures rest { OnOk result (IsTail self.old self.new) }
    {
        let header = self.left;
        let (bytes, rest) = record_of(order, header)?;
        self.left = rest;
        let seconds = u64::from(order.u32(header));
        let count = seconds * u64::from(interface.units) + u64::from(order.u32(&header[4..]));
        let at = interface.time(count);
        Ok(Part::Frame(Frame {
            at,
            number: 0,
            interface,
            bytes,
        }))
    }

    /// Reads a block of pcapng.
    fn block(&mut self) -> Result<Part<'a>, Damage>
        ensures nearer { OnOk result (length self.new < length self.old) }
        ensures part { IfOk result (HasFrame self.old) }
        ensures rest { OnOk result (IsTail self.old self.new) }
    {
        let bytes = self.left;
        if section_begins(bytes) {
            self.order = order_of(bytes)?;
            self.interfaces.clear();
        }
        let block = block_of(self.order, bytes)?;
        self.left = block.rest;
        self.part(block.kind, block.body)
    }

    /// What a block of a type has, by its body.
    fn part(&self, kind: u32, body: &'a [u8]) -> Result<Part<'a>, Damage>
        ensures { IfOk result (HasFrame body.now) }
    {
        match kind {
            SECTION => match version_of(self.order, body)? {
                1 => Ok(Part::Other),
                _ => Err(Damage::BadVersion),
            },
            INTERFACE => Ok(Part::Interface(interface_of(self.order, body)?)),
            PACKET => self.packet(body),
            OLD_PACKET => self.old_packet(body),
            SIMPLE_PACKET => self.simple_packet(body),
            _ => Ok(Part::Other),
        }
    }

    /// The frame of a block of a packet.
    fn packet(&self, body: &'a [u8]) -> Result<Part<'a>, Damage>
        ensures { IfOk result (HasFrame body.now) }
    {
        let bytes = captured_of(self.order, body)?;
        let number = self.order.u32(body);
        self.frame(number, time_of(self.order, body), bytes)
    }

    /// The frame of a block of a packet of an earlier version.
    fn old_packet(&self, body: &'a [u8]) -> Result<Part<'a>, Damage>
        ensures { IfOk result (HasFrame body.now) }
    {
        let bytes = captured_of(self.order, body)?;
        let number = u32::from(self.order.u16(body));
        self.frame(number, time_of(self.order, body), bytes)
    }

    /// The frame of a block of a packet without a time, which is of the first interface.
    fn simple_packet(&self, body: &'a [u8]) -> Result<Part<'a>, Damage>
        ensures { IfOk result (HasFrame body.now) }
    {
        let bytes = simple_of(self.order, body)?;
        self.frame(0, 0, bytes)
    }

    /// The frame of an interface by its number, at a time in its units.
    fn frame(&self, number: u32, count: u64, bytes: &'a [u8]) -> Result<Part<'a>, Damage>
        ensures { IfOk result (IsPartOf bytes.now) }
    {
        let Some(interface) = self.interfaces.get(number as usize) else {
            return Err(Damage::NoSuchInterface);
        };
        Ok(Part::Frame(Frame {
            at: interface.time(count),
            number,
            interface: *interface,
            bytes,
        }))
    }
}

impl<'a> Iterator for Frames<'a> {
    type Item = Result<Frame<'a>, CaptureError>;

    ghost next_gives = { GivesFrame };

    ghost remaining = { λ left. at_most (length left) };

    #[tactic(auto, using(crate::proofs::Standing::stands_in_tail, crate::proofs::Standing::tail_through))]
    fn next(&mut self) -> Option<Result<Frame<'a>, CaptureError>> {
        while !self.left.is_empty() {
            match self.step() {
                Ok(None) => {}
                Ok(Some(frame)) => return Some(Ok(frame)),
                Err(error) => {
                    self.left = &[];
                    return Some(Err(error));
                }
            }
        }
        None
    }
}
