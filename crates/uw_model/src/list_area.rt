// The plain form of an area: its bytes, and the count of its updates.
ghost use Rattle.std.specs.Prelude.{◌≡◌, ◌+◌, ◌%◌, ◌^◌, ◌≤◌, nat_le, length, slice_range, IfOk, OnOk, OnErr};
ghost use Rattle.uw_model.specs.declared.areas.AreaAnswer.TheVariants as answers;
ghost use Rattle.uw_model.specs.AreaOps.{IsAreaSize, area_answer, area_next, blank_area, bytes_in_width, difference_in, number_at_place, number_of_bytes, sum_in, width_bits, width_bytes, with_bytes, within_area};

use crate::{AreaAnswer, AreaOp, Width};
use std::alloc::Global;
use std::marker::Model;
use uw_base::{Bytes, Memory};

/// An area as plain bytes: the meaning of an area as a program. Contracts see its bytes and the count of its updates.
#[derive(Drop)]
pub struct ListArea {
    bytes: Vec<u8>,
    updates: u64,
}

impl Model for ListArea {
    ghost use Rattle.uw_model.specs.AreaOps.{AreaState};

    ghost Value = { AreaState };

    ghost view = { λ a. record { bytes = a.bytes.items; updates = a.updates } };
}

impl ListArea {
    /// An area of so many zero bytes.
    pub fn new(alloc: Global, size: u64) -> Result<ListArea, Memory>
        requires { IsAreaSize size }
        ensures { IfOk result (λ area. area ≡ blank_area size) }
    {
        let bytes = vec![in alloc; 0; size as usize]?;
        Ok(ListArea { bytes, updates: 0 })
    }

    /// Makes an operation, which costs its slice and not the area. Only a read can find no memory.
    #[tactic(auto, unfolding(crate::specs::AreaOps::area_answer, crate::specs::AreaOps::area_next))]
    pub fn call(&mut self, alloc: Global, op: &AreaOp) -> Result<AreaAnswer, Memory>
        ensures answer { IfOk result (λ answer. answer ≡ area_answer self.old op.now) }
        ensures next { OnOk result (self.new ≡ area_next self.old op.now) }
        ensures err { OnErr result (self.new ≡ self.old) }
    {
        match op {
            AreaOp::Read { at, len } => self.read(alloc, *at, *len),
            AreaOp::Write { at, bytes } => Ok(self.write(*at, bytes.as_slice())),
            AreaOp::ReadNum { at, width } => Ok(self.read_num(*at, *width)),
            AreaOp::WriteNum { at, width, value } => Ok(self.write_num(*at, *width, *value)),
            AreaOp::IncNum { at, width, by } => Ok(self.inc_num(*at, *width, *by)),
            AreaOp::DecNum { at, width, by } => Ok(self.dec_num(*at, *width, *by)),
            AreaOp::Updates => Ok(AreaAnswer::Number(self.updates)),
        }
    }

    // Whether the slice lies within the area.
    fn is_inside(&self, at: u64, len: u64) -> bool
        ensures { result ≡ nat_le (at + len) (length self.now.bytes) }
    {
        let size = self.bytes.len() as u64;
        len <= size && at <= size - len
    }

    // The answer that the slice does not lie within the area.
    fn out_of_area(&self, at: u64, len: u64) -> AreaAnswer
        ensures { result ≡ answers.OutOfArea at len (length self.now.bytes) }
    {
        AreaAnswer::OutOfArea {
            at,
            len,
            size: self.bytes.len() as u64,
        }
    }

    fn read(&self, alloc: Global, at: u64, len: u64) -> Result<AreaAnswer, Memory>
        ensures { IfOk result (λ answer. answer ≡ within_area self.now at len (answers.Bytes (slice_range self.now.bytes at (at + len)))) }
    {
        if !self.is_inside(at, len) {
            return Ok(self.out_of_area(at, len));
        }
        let bytes = Bytes::from_slice(alloc, &self.bytes[at as usize..(at + len) as usize])?;
        Ok(AreaAnswer::Bytes(bytes))
    }

    fn write(&mut self, at: u64, bytes: &[u8]) -> AreaAnswer
        ensures answer { result ≡ within_area self.old at (length bytes.now) answers.Done }
        ensures next { self.new ≡ with_bytes self.old at bytes.now }
    {
        let len = bytes.len() as u64;
        if !self.is_inside(at, len) {
            return self.out_of_area(at, len);
        }
        self.bytes[at as usize..(at + len) as usize].copy_from_slice(bytes);
        self.updates = self.updates.wrapping_add(1);
        AreaAnswer::Done
    }

    fn read_num(&self, at: u64, width: Width) -> AreaAnswer
        ensures { result ≡ within_area self.now at (width_bytes width) (answers.Number (number_at_place self.now at width)) }
    {
        if !self.is_inside(at, bytes_of(width)) {
            return self.out_of_area(at, bytes_of(width));
        }
        AreaAnswer::Number(number_at(self.bytes.as_slice(), at, width))
    }

    fn write_num(&mut self, at: u64, width: Width, value: u64) -> AreaAnswer
        ensures answer { result ≡ within_area self.old at (width_bytes width) answers.Done }
        ensures next { self.new ≡ with_bytes self.old at (bytes_in_width width value) }
    {
        match width {
            Width::W8 => self.write(at, &((value % (1 << 8)) as u8).to_le_bytes()),
            Width::W16 => self.write(at, &((value % (1 << 16)) as u16).to_le_bytes()),
            Width::W32 => self.write(at, &((value % (1 << 32)) as u32).to_le_bytes()),
            Width::W64 => self.write(at, &value.to_le_bytes()),
        }
    }

    fn inc_num(&mut self, at: u64, width: Width, by: u64) -> AreaAnswer
        ensures answer { result ≡ within_area self.old at (width_bytes width) (answers.Number (sum_in width (number_at_place self.old at width) by)) }
        ensures next { self.new ≡ with_bytes self.old at (bytes_in_width width (sum_in width (number_at_place self.old at width) by)) }
    {
        if !self.is_inside(at, bytes_of(width)) {
            return self.out_of_area(at, bytes_of(width));
        }
        let number = number_at(self.bytes.as_slice(), at, width);
        let sum = left_in(width, number.wrapping_add(by));
        self.write_num(at, width, sum);
        AreaAnswer::Number(sum)
    }

    fn dec_num(&mut self, at: u64, width: Width, by: u64) -> AreaAnswer
        ensures answer { result ≡ within_area self.old at (width_bytes width) (answers.Number (difference_in width (number_at_place self.old at width) by)) }
        ensures next { self.new ≡ with_bytes self.old at (bytes_in_width width (difference_in width (number_at_place self.old at width) by)) }
    {
        if !self.is_inside(at, bytes_of(width)) {
            return self.out_of_area(at, bytes_of(width));
        }
        let number = number_at(self.bytes.as_slice(), at, width);
        let difference = left_in(width, number.wrapping_sub(by));
        self.write_num(at, width, difference);
        AreaAnswer::Number(difference)
    }
}

// How many bytes a number of a width has.
fn bytes_of(width: Width) -> u64
    ensures { result ≡ width_bytes width }
{
    match width {
        Width::W8 => 1,
        Width::W16 => 2,
        Width::W32 => 4,
        Width::W64 => 8,
    }
}

// What is left of a number in a width.
fn left_in(width: Width, number: u64) -> u64
    ensures { result ≡ number % 2 ^ width_bits width }
{
    match width {
        Width::W8 => number % (1 << 8),
        Width::W16 => number % (1 << 16),
        Width::W32 => number % (1 << 32),
        Width::W64 => number,
    }
}

// The number at a place that lies within the bytes.
fn number_at(bytes: &[u8], at: u64, width: Width) -> u64
    requires { at + width_bytes width ≤ length bytes.now }
    ensures { result ≡ number_of_bytes width (slice_range bytes.now at (at + width_bytes width)) }
{
    let end = at + bytes_of(width);
    number_of(width, &bytes[at as usize..end as usize])
}

// The number that bytes of a width stand for.
fn number_of(width: Width, bytes: &[u8]) -> u64
    requires { length bytes.now ≡ width_bytes width }
    ensures { result ≡ number_of_bytes width bytes.now }
{
    match width {
        Width::W8 => u64::from(bytes[0]),
        Width::W16 => u64::from(u16::from_le_bytes([bytes[0], bytes[1]])),
        Width::W32 => u64::from(u32::from_le_bytes([bytes[0], bytes[1], bytes[2], bytes[3]])),
        Width::W64 => u64::from_le_bytes([
            bytes[0], bytes[1], bytes[2], bytes[3], bytes[4], bytes[5], bytes[6], bytes[7],
        ]),
    }
}
