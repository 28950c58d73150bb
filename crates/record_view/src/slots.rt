// What the slots of a file begin with, and which slot has the record.

ghost use Rattle.std.specs.Prelude.{◌≡◌, ◌+◌, ◌≤◌, ◌<◌, length, OnOk, ◌++◌, string_bytes};
ghost use Rattle.slot_record.specs.Images.{part};
ghost use Rattle.slot_record.specs.declared.slots.TheConstants.{LEAST_PLATE_LEN as TWO};
ghost use Rattle.rotating_record.specs.declared.slots.TheConstants.{ROTATING_PLATE_LEN as THREE};
ghost use Rattle.slot_record.specs.Slots as TwoSlots;
ghost use Rattle.record_view.specs.Slots.{counts_seen, rank_seen, has_seen, holder_seen, slot_seen_at};
ghost use Rattle.record_view.specs.Texts.{gate_text, holder_text, place_text, numbers_text, slot_text, mark_text, lines_of_two, lines_of_three, two_text, three_text, place_in_two, place_in_three};

use rotating_record::MARK;
use slot_record::{MAX_SEQUENCE, OPEN};
use stable_record::MAX_RECORD_LEN;
use std::alloc::AllocError;

/// What a slot begins with.
#[derive(Clone, Copy)]
pub(crate) struct SlotView {
    gate: u8,
    sequence: u64,
    length: u32,
}

/// The bytes of a number at a place.
fn chunk_at<const N: usize>(bytes: &[u8], at: usize) -> [u8; N]
    requires { at + N ≤ length bytes.now }
    ensures { result ≡ part at N bytes.now }
{
    match bytes[at..].first_chunk::<N>() {
        Some(chunk) => *chunk,
        None => unreachable!(),
    }
}

impl SlotView {
    /// Whether the gate is open and the numbers are in their ranges.
    fn counts(self) -> bool
        ensures { result ≡ counts_seen self }
    {
        self.gate == OPEN
            && self.sequence >= 1
            && self.sequence <= MAX_SEQUENCE
            && self.length as usize <= MAX_RECORD_LEN
    }

    /// The sequence if the slot counts, else 0.
    fn rank(self) -> u64
        ensures { result ≡ rank_seen self }
    {
        if self.counts() { self.sequence } else { 0 }
    }

    /// Whether the slot has the record of three: it counts, and the gate of the next one is closed.
    fn has_record(self, next: SlotView) -> bool
        ensures { result ≡ has_seen self next }
    {
        self.counts() && next.gate != OPEN
    }
}

/// The slot whose gate and whose numbers are at these places.
fn slot_at(bytes: &[u8], gate: usize, numbers: usize) -> SlotView
    requires gate { gate < length bytes.now }
    requires numbers { numbers + 12 ≤ length bytes.now }
    ensures { result ≡ slot_seen_at gate numbers bytes.now }
{
    SlotView {
        gate: bytes[gate],
        sequence: u64::from_be_bytes(chunk_at::<8>(bytes, numbers)),
        length: u32::from_be_bytes(chunk_at::<4>(bytes, numbers + 8)),
    }
}

/// The number of the slot of two that has the record, or 0.
fn holder_of_two(first: SlotView, second: SlotView) -> u32
    ensures { result ≡ place_in_two (TwoSlots.holder (rank_seen first) (rank_seen second)) }
{
    if first.rank() < second.rank() {
        return 2;
    }
    if first.rank() > 0 { 1 } else { 0 }
}

/// The number of the slot of three that has the record, or 0.
fn holder_of_three(mark: u64, first: SlotView, second: SlotView, third: SlotView) -> u32
    ensures { result ≡ place_in_three (holder_seen mark first second third) }
{
    if mark != MARK {
        return 0;
    }
    if first.has_record(second) {
        return 1;
    }
    if second.has_record(third) {
        return 2;
    }
    if third.has_record(first) { 3 } else { 0 }
}

fn gate_word(gate: u8) -> &'static str
    ensures { result.now ≡ gate_text gate }
{
    if gate == OPEN { "open" } else { "closed" }
}

fn holder_word(holder: u32, place: u32) -> &'static str
    ensures { result.now ≡ holder_text holder place }
{
    if place == holder {
        ", has the record"
    } else {
        ""
    }
}

fn mark_line(mark: u64) -> &'static str
    ensures { result.now ≡ mark_text mark }
{
    if mark == MARK {
        "200704 bytes, 3 slots\n"
    } else {
        "200704 bytes, 3 slots, without the mark of the format\n"
    }
}

/// Adds the number of a slot.
fn push_place(text: &mut String, place: u32) -> Result<(), AllocError>
    ensures { OnOk result (string_bytes text.new ≡ string_bytes text.old ++ place_text place) }
{
    write!(text, "slot {place}: ")
}

/// Adds the numbers of a slot.
fn push_numbers(text: &mut String, sequence: u64, length: u32) -> Result<(), AllocError>
    ensures { OnOk result (string_bytes text.new ≡ string_bytes text.old ++ numbers_text sequence length) }
{
    write!(text, ", sequence {sequence}, {length} bytes")
}

/// Adds the line of a slot.
fn push_slot(text: &mut String, holder: u32, place: u32, slot: SlotView) -> Result<(), AllocError>
    ensures { OnOk result (string_bytes text.new ≡ string_bytes text.old ++ slot_text holder place slot) }
{
    let (gate, record) = (gate_word(slot.gate), holder_word(holder, place));
    push_place(text, place)?;
    text.push_str(gate)?;
    push_numbers(text, slot.sequence, slot.length)?;
    text.push_str(record)?;
    text.push_str("\n")?;
    Ok(())
}

/// Adds the lines of two slots.
fn push_lines_of_two(
    text: &mut String,
    holder: u32,
    first: SlotView,
    second: SlotView,
) -> Result<(), AllocError>
    ensures { OnOk result (string_bytes text.new ≡ string_bytes text.old ++ lines_of_two holder first second) }
{
    text.push_str("120026 bytes, 2 slots\n")?;
    push_slot(text, holder, 1, first)?;
    push_slot(text, holder, 2, second)
}

/// Adds the lines of three slots.
fn push_lines_of_three(
    text: &mut String,
    mark: u64,
    holder: u32,
    first: SlotView,
    second: SlotView,
    third: SlotView,
) -> Result<(), AllocError>
    ensures { OnOk result (string_bytes text.new ≡ string_bytes text.old ++ lines_of_three mark holder first second third) }
{
    text.push_str(mark_line(mark))?;
    push_slot(text, holder, 1, first)?;
    push_slot(text, holder, 2, second)?;
    push_slot(text, holder, 3, third)?;
    Ok(())
}

/// Adds the lines of a file with two slots.
pub(crate) fn push_two(text: &mut String, bytes: &[u8]) -> Result<(), AllocError>
    requires { length bytes.now ≡ TWO }
    ensures { OnOk result (string_bytes text.new ≡ string_bytes text.old ++ two_text bytes.now) }
{
    let (first, second) = (slot_at(bytes, 0, 1), slot_at(bytes, 60_013, 60_014));
    let holder = holder_of_two(first, second);
    push_lines_of_two(text, holder, first, second)?;
    Ok(())
}

/// Adds the lines of a file with three slots.
pub(crate) fn push_three(text: &mut String, bytes: &[u8]) -> Result<(), AllocError>
    requires { length bytes.now ≡ THREE }
    ensures { OnOk result (string_bytes text.new ≡ string_bytes text.old ++ three_text bytes.now) }
{
    let mark = u64::from_be_bytes(chunk_at::<8>(bytes, 0));
    let first = slot_at(bytes, 4_096, 8_192);
    let second = slot_at(bytes, 69_632, 73_728);
    let third = slot_at(bytes, 135_168, 139_264);
    let holder = holder_of_three(mark, first, second, third);
    push_lines_of_three(text, mark, holder, first, second, third)?;
    Ok(())
}
