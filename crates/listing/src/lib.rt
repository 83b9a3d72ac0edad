// The lines of a job, as a farm and as a supplier reads them, written into a lent buffer.

#![tactic(auto)]

ghost use Rattle.std.specs.Prelude.{◌≡◌, [], ◌++◌, ◌+◌, ◌^◌, ◌≤◌, ◌<◌, length, drop};
ghost use Rattle.forms.specs.Table.{table_numbers};
ghost use Rattle.job.specs.Outcome.{outcome, table_after};
ghost use Rattle.register.specs.Limits.{max_choices};
ghost use Rattle.text.specs.Text.{line};
ghost use Rattle.wire.specs.Outcome.{answer_by};
ghost use Rattle.wire.specs.Results.{outcome_of};
ghost use Rattle.wire.specs.Writer.{refused_answer, written_answer};
ghost use Rattle.listing.specs.Listing.{choice_lines, fed_lines, supplier_lines, accepted_lines, refusal_line, listed, listing, supplier_listing};
ghost use Rattle.listing.specs.Readers.{lines_for};
ghost use Rattle.listing.specs.Answer.{listing_room, answer_with, buffer_with, listing_answer, listing_table, listing_buffer, supplier_answer, supplier_buffer};

use forms::WorkingTable;
use job::{JobRead, read_job};
use plan::choice_sets::has;
use register::Register;
use std::marker::Model;
use wire::{Fault, Refusal, WriterAnswer};

// A listing: lines put one after the other at the front of an array. An `ArrayVec` lends no room past its end, where
// `text::put_line` writes. Nothing compares or prints one.
#[derive(Clone, Copy)]
pub struct Listing {
    bytes: [u8; Listing::MAX_BYTES],
    count: usize,
}

// Clauses see the bytes of the lines. What stands past them is 0, so the lines give the fields back, which a copy needs.
impl Model for Listing {
    ghost use Rattle.std.specs.Prelude.{◌≡◌, ℕ, List, ◌≤◌, length, take};
    ghost use Rattle.std.proofs.Common.{arith, length-take-le};
    ghost use Rattle.listing.specs.Answer.{listing_room};
    ghost use Rattle.listing.specs.Held.{held};

    ghost Value = { List ℕ };

    ghost view = { λ l. take l.count l.bytes };

    ghost invariant = { λ l. (l.count ≤ listing_room) × ((length l.bytes ≡ listing_room) × (held (take l.count l.bytes) ≡ l.bytes)) };

    ghost inverse = { λ lines. record { bytes = held lines; count = length lines } };

    ghost inverse_ok = { λ l h i. record {
      bytes = h.1.1 i;
      count = length-take-le l.count l.bytes (omega (arith, h.0, h.1.0)) i;
    } };
}

// Who reads a listing.
#[derive(Clone, Copy, Debug, PartialEq, Eq)]
pub enum Reader {
    Farm,
    Supplier,
}

impl Listing {
    // No listing of a job has more bytes.
    pub const MAX_BYTES: usize = 4096;

    pub fn empty() -> Listing
        ensures { result ≡ [] }
    {
        Listing {
            bytes: [0; Listing::MAX_BYTES],
            count: 0,
        }
    }

    // The count of bytes.
    pub fn len(&self) -> usize
        ensures value { result ≡ length self.now }
        ensures within { result ≤ listing_room }
    {
        self.count
    }

    // Writes the lines at the front of a buffer. Returns their count of bytes.
    pub fn write_to(&self, buffer: &mut [u8]) -> usize
        requires { length self.now ≤ length buffer.old }
        ensures value { result ≡ length self.now }
        ensures buffer_after { buffer.new ≡ self.now ++ drop result buffer.old }
        ensures within { result ≤ length buffer.new }
    {
        buffer[..self.count].copy_from_slice(&self.bytes[..self.count]);
        self.len()
    }

    // Puts a line: a letter, which is the byte that is written, and the numbers.
    pub fn put_line(&mut self, letter: u8, numbers: &[i64])
        requires { length self.old + length (line letter numbers.now) ≤ listing_room }
        ensures { self.new ≡ self.old ++ line letter numbers.now }
    {
        self.count = text::put_line(&mut self.bytes, self.count, letter, numbers);
    }

    // Puts the line of each choice: its number, tank and minute.
    pub fn put_choices(&mut self, register: Register)
        requires choices_le_max_choices { register.choices ≤ max_choices }
        requires room { length self.old + length (choice_lines register) ≤ listing_room }
        ensures { self.new ≡ self.old ++ choice_lines register }
    {
        for i in 0..register.choices {
            let tank = i64::from(register.tanks[i]);
            let minute = i64::from(register.minutes[i]);
            self.put_line(0x54, &[i as i64, tank, minute]);
        }
    }

    // Puts the line of each fed choice: its tank and minute.
    pub fn put_fed(&mut self, register: Register, plan: u64)
        requires choices_le_max_choices { register.choices ≤ max_choices }
        requires room { length self.old + length (fed_lines register plan) ≤ listing_room }
        ensures { self.new ≡ self.old ++ fed_lines register plan }
    {
        for i in 0..register.choices {
            let fed = has(plan, i);
            if fed {
                let tank = i64::from(register.tanks[i]);
                let minute = i64::from(register.minutes[i]);
                self.put_line(0x46, &[tank, minute]);
            }
        }
    }

    // Puts the line of each choice that a supplier may read: its number, and 1 or 0 for fed or not.
    pub fn put_supplier_choices(&mut self, register: Register, plan: u64)
        requires choices_le_max_choices { register.choices ≤ max_choices }
        requires room { length self.old + length (supplier_lines register plan) ≤ listing_room }
        ensures { self.new ≡ self.old ++ supplier_lines register plan }
    {
        for i in 0..register.choices {
            let fed = has(plan, i);
            self.put_line(0x43, &[i as i64, i64::from(fed)]);
        }
    }

    // Puts the line of a refusal.
    pub fn put_refusal(&mut self, number: u8, position: usize)
        requires position_bound { position < 2 ^ 63 }
        requires room { length self.old + length (refusal_line number position) ≤ listing_room }
        ensures { self.new ≡ self.old ++ refusal_line number position }
    {
        self.put_line(0x52, &[i64::from(number), position as i64]);
    }

    // Puts the lines of the choices, as a reader has them.
    fn put_plan(&mut self, register: Register, plan: u64, reader: Reader)
        requires choices_le_max_choices { register.choices ≤ max_choices }
        requires room { length self.old + length (lines_for reader register plan) ≤ listing_room }
        ensures { self.new ≡ self.old ++ lines_for reader register plan }
    {
        match reader {
            Reader::Farm => {
                self.put_choices(register);
                self.put_fed(register, plan);
            }
            Reader::Supplier => self.put_supplier_choices(register, plan),
        }
    }

    // Puts the lines of an accepted job.
    fn put_accepted(&mut self, read: JobRead, reader: Reader)
        requires choices_le_max_choices { read.register.choices ≤ max_choices }
        requires room { length self.old + length (accepted_lines (lines_for reader) read.register read.plan read.bound read.cost read.gap) ≤ listing_room }
        ensures { self.new ≡ self.old ++ accepted_lines (lines_for reader) read.register read.plan read.bound read.cost read.gap }
    {
        self.put_plan(read.register, read.plan, reader);
        self.put_line(0x42, &[read.bound, read.cost, read.gap]);
    }
}

// Reads a job and lists its lines, as a reader has them. The table is as after the job.
fn listing_of(job: &[u8], table: &mut [i64], reader: Reader) -> Listing
    requires { table_numbers ≤ length table.old }
    ensures value { result ≡ listed (lines_for reader) (outcome job.now) }
    ensures table_after { table.new ≡ table_after job.now table.old }
{
    let mut listing = Listing::empty();
    match read_job(job, table) {
        Ok(read) => listing.put_accepted(read, reader),
        Err(fault) => listing.put_refusal(fault.refusal.number(), fault.position),
    }
    listing
}

// Reads a job and writes its lines, as a reader has them, at the front of the lent buffer. Returns their count of bytes.
fn put_listing(
    job: &[u8],
    table: &mut [i64],
    reader: Reader,
    buffer: &mut [u8],
) -> Result<usize, Fault>
    ensures value { answer_by refused_answer written_answer (outcome_of result) ≡ answer_with (lines_for reader) job.now table.old buffer.old }
    ensures table_after { table.new ≡ listing_table job.now table.old }
    ensures buffer_after { buffer.new ≡ buffer_with (lines_for reader) job.now table.old buffer.old }
{
    if table.len() < WorkingTable::NUMBERS {
        return Err(Fault::nowhere(Refusal::TooShort));
    }
    let listing = listing_of(job, table, reader);
    if buffer.len() < listing.len() {
        return Err(Fault::nowhere(Refusal::TooShort));
    }
    Ok(listing.write_to(buffer))
}

// The answer of the call for a reader.
#[tactic(auto, using(crate::proofs::Outcome::listing_short))]
fn write_listing(job: &[u8], table: &mut [i64], reader: Reader, buffer: &mut [u8]) -> WriterAnswer
    ensures value { result ≡ answer_with (lines_for reader) job.now table.old buffer.old }
    ensures table_after { table.new ≡ listing_table job.now table.old }
    ensures buffer_after { buffer.new ≡ buffer_with (lines_for reader) job.now table.old buffer.old }
    ensures listing_within { length (listed (lines_for reader) (outcome job.now)) ≤ listing_room }
{
    match put_listing(job, table, reader, buffer) {
        Ok(count) => WriterAnswer::written(count),
        Err(fault) => WriterAnswer::from_fault(fault),
    }
}

// The listing of a job that a farm reads. The table is as after the job itself. The last clause is for callers: with a table long
// enough and a buffer of 4,096 bytes nothing is refused.
#[unsafe(no_mangle)]
pub extern "C" fn feedcheck_listing(
    job: &[u8],
    table: &mut [i64],
    buffer: &mut [u8],
) -> WriterAnswer
    ensures value { result ≡ listing_answer job.now table.old buffer.old }
    ensures table_after { table.new ≡ listing_table job.now table.old }
    ensures buffer_after { buffer.new ≡ listing_buffer job.now table.old buffer.old }
    ensures listing_within { length (listing (outcome job.now)) ≤ listing_room }
{
    write_listing(job, table, Reader::Farm, buffer)
}

// The listing of a job that its supplier may read, lent and refused as the farm's is, with the same table after it.
#[unsafe(no_mangle)]
pub extern "C" fn feedcheck_supplier_listing(
    job: &[u8],
    table: &mut [i64],
    buffer: &mut [u8],
) -> WriterAnswer
    ensures value { result ≡ supplier_answer job.now table.old buffer.old }
    ensures table_after { table.new ≡ listing_table job.now table.old }
    ensures buffer_after { buffer.new ≡ supplier_buffer job.now table.old buffer.old }
    ensures listing_within { length (supplier_listing (outcome job.now)) ≤ listing_room }
{
    write_listing(job, table, Reader::Supplier, buffer)
}
