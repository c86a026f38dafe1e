// Each operation of an area as planned words.
ghost use Rattle.std.specs.Prelude.{◌≡◌, ◌+◌, ◌≤◌, nat_le, true, length, IfOk, OnErr};
ghost use Rattle.uw_model.specs.declared.areas.AreaOp.TheVariants as ops;
ghost use Rattle.uw_model.specs.declared.areas.AreaAnswer.TheVariants as answers;
ghost use Rattle.uw_model.specs.AreaLimits.{most_written};
ghost use Rattle.uw_model.specs.AreaOps.{AreaState, area_answer, bytes_in_width, width_bytes};
ghost use Rattle.uw_words.specs.Plans.{region};
ghost use Rattle.uw_area.specs.AreaWords.{HoldsArea};
ghost use Rattle.uw_area.specs.AreaSteps.{IsRegion, IsUnplanned, PlansOp};
ghost use Rattle.uw_area.specs.AreaViews.{is_read};

use crate::bytes::{bytes_at, number_at, put_bytes};
use crate::widths::{bytes_of, difference_of, sum_of};
use std::alloc::Global;
use uw_base::Memory;
use uw_model::{AreaAnswer, AreaOp, Width};
use uw_words::{Overlay, Ram};

// The header word that counts the updates.
const UPDATES: u64 = 2;

// Whether the slice lies within an area of so many bytes.
fn is_inside(size: u64, at: u64, len: u64) -> bool
    ensures { result ≡ nat_le (at + len) size }
{
    len <= size && at <= size - len
}

// The answer that the slice does not lie within the area.
fn out_of_area(size: u64, at: u64, len: u64) -> AreaAnswer
    ensures { result ≡ answers.OutOfArea at len size }
{
    AreaAnswer::OutOfArea { at, len, size }
}

// Copies bytes, with nothing planned.
fn read(alloc: Global, size: u64, ram: &Ram, at: u64, len: u64) -> Result<AreaAnswer, Memory>
    requires { IsRegion size ram.now }
    ensures { IfOk result (λ answer. (area : AreaState) → HoldsArea (region ram.now) size area
        → answer ≡ area_answer area (ops.Read at len)) }
{
    if !is_inside(size, at, len) {
        return Ok(out_of_area(size, at, len));
    }
    Ok(AreaAnswer::Bytes(bytes_at(alloc, size, ram, at, len)?))
}

// Plans the words of bytes that lie within the area, and of the count of updates.
fn put_within(size: u64, ram: &Ram, over: &mut Overlay, at: u64, put: &[u8])
    requires unplanned { IsUnplanned size ram.now over.old }
    requires within { at + length put.now ≤ size }
    requires few { length put.now ≤ most_written }
    ensures room { over.new.room ≡ over.old.room }
    ensures plan { PlansOp size ram.now (ops.Write at put.now) over.new }
{
    put_bytes(size, ram, over, at, put);
    let updates = over.load(ram, UPDATES);
    over.put(UPDATES, updates.wrapping_add(1));
    // it names each place once
    let _ = over.count();
}

// Plans the words of what is left of a number in a width.
fn put_number(size: u64, ram: &Ram, over: &mut Overlay, at: u64, width: Width, number: u64)
    requires unplanned { IsUnplanned size ram.now over.old }
    requires within { at + width_bytes width ≤ size }
    ensures room { over.new.room ≡ over.old.room }
    ensures plan { PlansOp size ram.now (ops.Write at (bytes_in_width width number)) over.new }
{
    match width {
        Width::W8 => put_within(
            size,
            ram,
            over,
            at,
            &((number % (1 << 8)) as u8).to_le_bytes(),
        ),
        Width::W16 => put_within(
            size,
            ram,
            over,
            at,
            &((number % (1 << 16)) as u16).to_le_bytes(),
        ),
        Width::W32 => put_within(
            size,
            ram,
            over,
            at,
            &((number % (1 << 32)) as u32).to_le_bytes(),
        ),
        Width::W64 => put_within(size, ram, over, at, &number.to_le_bytes()),
    }
}

fn write(size: u64, ram: &Ram, over: &mut Overlay, at: u64, bytes: &[u8]) -> AreaAnswer
    requires unplanned { IsUnplanned size ram.now over.old }
    requires few { length bytes.now ≤ most_written }
    ensures room { over.new.room ≡ over.old.room }
    ensures answer { (area : AreaState) → HoldsArea (region ram.now) size area
        → result ≡ area_answer area (ops.Write at bytes.now) }
    ensures plan { PlansOp size ram.now (ops.Write at bytes.now) over.new }
{
    let len = bytes.len() as u64;
    if !is_inside(size, at, len) {
        return out_of_area(size, at, len);
    }
    put_within(size, ram, over, at, bytes);
    AreaAnswer::Done
}

fn read_num(size: u64, ram: &Ram, at: u64, width: Width) -> AreaAnswer
    requires { IsRegion size ram.now }
    ensures { (area : AreaState) → HoldsArea (region ram.now) size area
        → result ≡ area_answer area (ops.ReadNum at width) }
{
    if !is_inside(size, at, bytes_of(width)) {
        return out_of_area(size, at, bytes_of(width));
    }
    AreaAnswer::Number(number_at(size, ram, at, width))
}

fn write_num(
    size: u64,
    ram: &Ram,
    over: &mut Overlay,
    at: u64,
    width: Width,
    value: u64,
) -> AreaAnswer
    requires { IsUnplanned size ram.now over.old }
    ensures room { over.new.room ≡ over.old.room }
    ensures answer { (area : AreaState) → HoldsArea (region ram.now) size area
        → result ≡ area_answer area (ops.WriteNum at width value) }
    ensures plan { PlansOp size ram.now (ops.WriteNum at width value) over.new }
{
    if !is_inside(size, at, bytes_of(width)) {
        return out_of_area(size, at, bytes_of(width));
    }
    put_number(size, ram, over, at, width, value);
    AreaAnswer::Done
}

fn inc_num(size: u64, ram: &Ram, over: &mut Overlay, at: u64, width: Width, by: u64) -> AreaAnswer
    requires { IsUnplanned size ram.now over.old }
    ensures room { over.new.room ≡ over.old.room }
    ensures answer { (area : AreaState) → HoldsArea (region ram.now) size area
        → result ≡ area_answer area (ops.IncNum at width by) }
    ensures plan { PlansOp size ram.now (ops.IncNum at width by) over.new }
{
    if !is_inside(size, at, bytes_of(width)) {
        return out_of_area(size, at, bytes_of(width));
    }
    let sum = sum_of(width, number_at(size, ram, at, width), by);
    put_number(size, ram, over, at, width, sum);
    AreaAnswer::Number(sum)
}

fn dec_num(size: u64, ram: &Ram, over: &mut Overlay, at: u64, width: Width, by: u64) -> AreaAnswer
    requires { IsUnplanned size ram.now over.old }
    ensures room { over.new.room ≡ over.old.room }
    ensures answer { (area : AreaState) → HoldsArea (region ram.now) size area
        → result ≡ area_answer area (ops.DecNum at width by) }
    ensures plan { PlansOp size ram.now (ops.DecNum at width by) over.new }
{
    if !is_inside(size, at, bytes_of(width)) {
        return out_of_area(size, at, bytes_of(width));
    }
    let difference = difference_of(width, number_at(size, ram, at, width), by);
    put_number(size, ram, over, at, width, difference);
    AreaAnswer::Number(difference)
}

// Plans the words by which a region comes to hold the area after an operation, and says what it answers. Only a read takes
// memory.
pub(crate) fn plan_op(
    alloc: Global,
    size: u64,
    ram: &Ram,
    over: &mut Overlay,
    op: &AreaOp,
) -> Result<AreaAnswer, Memory>
    requires { IsUnplanned size ram.now over.old }
    ensures room { over.new.room ≡ over.old.room }
    ensures answer { IfOk result (λ answer. (area : AreaState) → HoldsArea (region ram.now) size area → answer ≡ area_answer area op.now) }
    ensures plan { PlansOp size ram.now op.now over.new }
    ensures memory { OnErr result (is_read op.now ≡ true) }
{
    match op {
        AreaOp::Read { at, len } => read(alloc, size, ram, *at, *len),
        AreaOp::Write { at, bytes } => Ok(write(size, ram, over, *at, bytes.as_slice())),
        AreaOp::ReadNum { at, width } => Ok(read_num(size, ram, *at, *width)),
        AreaOp::WriteNum { at, width, value } => Ok(write_num(
            size, ram, over, *at, *width, *value,
        )),
        AreaOp::IncNum { at, width, by } => Ok(inc_num(size, ram, over, *at, *width, *by)),
        AreaOp::DecNum { at, width, by } => Ok(dec_num(size, ram, over, *at, *width, *by)),
        AreaOp::Updates => Ok(AreaAnswer::Number(ram.load(UPDATES))),
    }
}
