// Eight rows as plain lists of bits, with the rules of a store written out once more.
ghost use Rattle.std.specs.Prelude.{◌<◌, ◌≤◌, ◌^◌, vec_len, vec_capacity};

use rows::Room;
use std::alloc::{AllocError, Global};

// Why the lists refuse, each with its number, written out apart from the stores' own.
#[derive(Clone, Copy, PartialEq, Eq)]
pub enum Rule {
    NoSuchRow = 23,
    EmptyPut = 24,
    PutsFull = 25,
    RowTooLong = 26,
    PastEnd = 27,
}

impl Rule {
    pub fn number(self) -> u32 {
        self as u32
    }

    // The place among the five.
    pub fn place(self) -> usize
        ensures { result < 5 }
    {
        self as usize - 23
    }
}

// A row's bits, and how many puts it has taken. Memory for all the bits that it has room for is taken at the start.
#[derive(Drop)]
struct ListedRow {
    room: Room,
    bits: Vec<bool>,
    puts: u32,
    // so a cast of a number of bits loses nothing, where `u32::try_from` would add a case that never comes
    ghost short: { vec_len bits < 2 ^ 32 },
    ghost reserved: { room.bits ≤ vec_capacity bits },
}

impl ListedRow {
    fn new(heap: Global, room: Room) -> Result<ListedRow, AllocError> {
        let bits = Vec::with_capacity(heap, room.bits as usize)?;
        Ok(ListedRow {
            room,
            bits,
            puts: 0,
        })
    }

    fn clear(&mut self) {
        self.bits.clear();
        self.puts = 0;
    }

    fn put(&mut self, bit: bool, count: u32) -> Result<(), Rule> {
        if count == 0 {
            return Err(Rule::EmptyPut);
        }
        if self.puts >= self.room.puts {
            return Err(Rule::PutsFull);
        }
        let length = self.bits.len() + count as usize;
        if length > self.room.bits as usize {
            return Err(Rule::RowTooLong);
        }
        self.bits.resize(length, bit).unwrap();
        self.puts += 1;
        Ok(())
    }

    fn length(&self) -> u32 {
        // by `short` the cast loses nothing
        self.bits.len() as u32
    }

    fn zeros(&self, position: u32) -> Result<u32, Rule> {
        let front = self.bits.get(..position as usize).ok_or(Rule::PastEnd)?;
        // by `short` the cast loses nothing
        Ok(front.iter().filter(|&&bit| !bit).count() as u32)
    }
}

#[derive(Drop)]
pub struct Listed {
    // the eight rows
    rows: Vec<ListedRow>,
}

impl Listed {
    pub fn new(heap: Global, room: Room) -> Result<Listed, AllocError> {
        let rows = (0..8)
            .map(|_| ListedRow::new(heap, room))
            .try_collect(heap)?;
        Ok(Listed { rows })
    }

    fn row(&self, row: u32) -> Result<&ListedRow, Rule> {
        self.rows.get(row as usize).ok_or(Rule::NoSuchRow)
    }

    fn row_mut(&mut self, row: u32) -> Result<&mut ListedRow, Rule> {
        self.rows.get_mut(row as usize).ok_or(Rule::NoSuchRow)
    }

    pub fn clear(&mut self) {
        for row in &mut self.rows {
            row.clear();
        }
    }

    pub fn put(&mut self, row: u32, bit: bool, count: u32) -> Result<(), Rule> {
        self.row_mut(row)?.put(bit, count)
    }

    pub fn length(&self, row: u32) -> Result<u32, Rule> {
        Ok(self.row(row)?.length())
    }

    pub fn zeros(&self, row: u32, position: u32) -> Result<u32, Rule> {
        self.row(row)?.zeros(position)
    }
}
