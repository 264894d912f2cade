//! ELF32 images: a file header, a table of program headers, and the bytes that they name.
//!
//! The checks come in the order of the definition of ELF images: the file header, and then each program
//! header that brings bytes. Those that bring none aren't looked at, and no other part of a file is.

ghost use Rattle.std.specs.Prelude.{◌≡◌, ◌+◌, ◌^◌, ◌<◌, ◌≤◌, true, length, drop, None, Ok, IfOk, IfErr, OnOk};
ghost use Rattle.tz_elf.specs.ElfImage as elf;
ghost use Rattle.tz_elf.specs.Placement.{placed_in};
ghost use Rattle.tz_elf.specs.Refusals.{IsImageRefusal};
ghost use Rattle.tz_elf.specs.Steps.{HeaderGives, HeaderIsRefused, IsCause};
ghost use Rattle.tz_elf.specs.Taken.{Keeps};

use crate::error::ElfError;
use crate::placed::Placed;
use crate::placement::test_segment;
use byteorder::{ByteOrder, LittleEndian};
use std::alloc::{AllocError, Global};
use std::marker::Model;
use tz_model::{Region, Segment};

/// The size of the file header.
const FILE_HEADER: usize = 52;

/// The parts of a program header that tell what bytes it brings: p_type, p_offset, p_paddr and
/// p_filesz.
#[derive(Drop)]
struct ProgramHeader {
    kind: u32,
    offset: u32,
    address: u32,
    size: u32,
}

impl Model for ProgramHeader {
    ghost use Rattle.tz_elf.specs.ElfImage as elf;

    ghost Value = { elf.ProgramHeader };

    ghost view = { λ h. record { kind = h.kind; offset = h.offset; address = h.address; size = h.size } };
}

impl ProgramHeader {
    /// Whether the header brings bytes: PT_LOAD with a file size.
    fn brings_bytes(&self) -> bool
        ensures { elf.brings_bytes self.now ≡ result }
    {
        self.kind == 1 && self.size != 0
    }

    /// Whether the bytes of the header lie in the file.
    fn is_whole(&self, file: &[u8]) -> bool
        ensures { elf.is_whole file.now self.now ≡ result }
    {
        self.offset as usize + self.size as usize <= file.len()
    }

    /// The segment that the header brings, at its physical address.
    fn load(&self, alloc: Global, file: &[u8]) -> Result<Segment, AllocError>
        requires { elf.is_whole file.now self.now ≡ true }
        ensures { IfOk result (λ s. elf.loaded file.now self.now ≡ s) }
    {
        let start = self.offset as usize;
        let bytes = Vec::from_slice(alloc, &file[start..start + self.size as usize])?;
        Ok(Segment {
            base: self.address,
            bytes,
        })
    }
}

/// The field of 2 bytes at a place, the low byte first.
fn half_field(bytes: &[u8], place: usize) -> u16
    requires { place + 2 ≤ length bytes.now }
    ensures { elf.half_field bytes.now place ≡ result }
{
    LittleEndian::read_u16(&bytes[place..])
}

/// The field of 4 bytes at a place, the low byte first.
fn word_field(bytes: &[u8], place: usize) -> u32
    requires { place + 4 ≤ length bytes.now }
    ensures { elf.word_field bytes.now place ≡ result }
{
    LittleEndian::read_u32(&bytes[place..])
}

/// Tests that the table of program headers lies in the file.
fn test_table(file: &[u8]) -> Result<(), ElfError>
    requires { 52 ≤ length file.now }
    ensures ok { OnOk result (elf.table_refusal file.now ≡ None) }
    ensures table { OnOk result (elf.has_table file.now ≡ true) }
    ensures err { IfErr result (IsCause (elf.table_refusal file.now)) }
{
    let place = word_field(file, 28);
    let size = half_field(file, 42);
    let count = half_field(file, 44);
    if count != 0 && (size != 32 || u64::from(place) + 32 * u64::from(count) > file.len() as u64) {
        return Err(ElfError::HeaderCut);
    }
    Ok(())
}

/// Tests the file header.
fn test_header(file: &[u8]) -> Result<(), ElfError>
    ensures ok { OnOk result (elf.header_refusal file.now ≡ None) }
    ensures long { OnOk result (52 ≤ length file.now) }
    ensures table { OnOk result (elf.has_table file.now ≡ true) }
    ensures err { IfErr result (IsCause (elf.header_refusal file.now)) }
{
    if file.len() < 4 || file[0] != 0x7F || file[1] != b'E' || file[2] != b'L' || file[3] != b'F' {
        return Err(ElfError::Magic);
    }
    if file.len() < FILE_HEADER {
        return Err(ElfError::HeaderCut);
    }
    if file[4] != 1 || file[5] != 1 {
        return Err(ElfError::ClassOrOrder);
    }
    if half_field(file, 16) != 2 || half_field(file, 18) != 40 {
        return Err(ElfError::TypeOrMachine);
    }
    test_table(file)
}

/// The program header at a place of the file.
fn read_program_header(file: &[u8], place: usize) -> ProgramHeader
    requires { place + 32 ≤ length file.now }
    ensures { elf.program_header (drop place file.now) ≡ result }
{
    let entry = &file[place..];
    ProgramHeader {
        kind: word_field(entry, 0),
        offset: word_field(entry, 4),
        address: word_field(entry, 12),
        size: word_field(entry, 16),
    }
}

/// The segments of the program headers so far, with the indexes of these headers.
#[derive(Drop)]
struct Loads {
    numbers: Vec<u32>,
    placed: Placed,
}

/// The index of the program header of the first segment that shares a byte with another.
fn earlier_header(numbers: &[u32], segment: &Segment, placed: &Placed) -> Option<u32>
    requires kept { Keeps placed.now }
    requires paired { length numbers.now ≡ length placed.now.segments.items }
    requires few { length placed.now.segments.items < 2 ^ 32 }
    ensures { elf.earlier_header numbers.now segment.now placed.now.segments.items ≡ result }
{
    match placed.first_sharing(segment) {
        Some(place) => Some(numbers[place as usize]),
        None => None,
    }
}

/// Puts the segment of a program header behind those of the headers before it, if the header brings
/// bytes and they may stand there.
fn add_load(
    alloc: Global,
    file: &[u8],
    regions: &[Region],
    usable: &[Region],
    index: u32,
    header: &ProgramHeader,
    loads: &mut Loads,
) -> Result<(), ElfError>
    requires kept { Keeps loads.old.placed }
    requires paired { length loads.old.numbers.items ≡ length loads.old.placed.segments.items }
    requires few { length loads.old.placed.segments.items < 2 ^ 32 }
    ensures ok { OnOk result (HeaderGives (placed_in regions.now usable.now) file.now index
        loads.old.numbers.items loads.old.placed.segments.items header.now
        loads.new.numbers.items loads.new.placed.segments.items) }
    ensures kept { OnOk result (Keeps loads.new.placed) }
    ensures paired { OnOk result (length loads.new.numbers.items ≡ length loads.new.placed.segments.items) }
    ensures grows { OnOk result (length loads.new.placed.segments.items ≤ length loads.old.placed.segments.items + 1) }
    ensures err { IfErr result (HeaderIsRefused (placed_in regions.now usable.now) file.now index
        loads.old.numbers.items loads.old.placed.segments.items header.now) }
{
    if !header.brings_bytes() {
        return Ok(());
    }
    if !header.is_whole(file) {
        return Err(ElfError::SegmentCut(index));
    }
    let segment = match header.load(alloc, file) {
        Ok(segment) => segment,
        Err(_) => return Err(ElfError::Memory),
    };
    let earlier = earlier_header(&loads.numbers, &segment, &loads.placed);
    if let Err(error) = test_segment(regions, usable, index, earlier, &segment) {
        return Err(error);
    }
    if loads.numbers.push(index).is_err() {
        return Err(ElfError::Memory);
    }
    match loads.placed.push(segment) {
        Ok(()) => Ok(()),
        Err(_) => Err(ElfError::Memory),
    }
}

/// Reads an ELF image whose segments may stand in some of all regions.
pub fn read_elf(
    alloc: Global,
    file: &[u8],
    regions: &[Region],
    usable: &[Region],
) -> Result<Vec<Segment>, ElfError>
    ensures ok { IfOk result (λ v. elf.elf_segments (placed_in regions.now usable.now) file.now ≡ Ok v.items) }
    ensures err { IfErr result (λ e. IsImageRefusal e (elf.elf_segments (placed_in regions.now usable.now) file.now)) }
{
    if let Err(error) = test_header(file) {
        return Err(error);
    }
    let table = word_field(file, 28) as usize;
    let mut loads = Loads {
        numbers: Vec::new(alloc),
        placed: Placed::new(alloc),
    };
    for index in 0..half_field(file, 44) {
        let header = read_program_header(file, table + 32 * index as usize);
        if let Err(error) = add_load(
            alloc,
            file,
            regions,
            usable,
            index as u32,
            &header,
            &mut loads,
        ) {
            return Err(error);
        }
    }
    let placed = loads.placed;
    Ok(placed.segments)
}
