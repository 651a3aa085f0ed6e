// Seeded calls to two stores and to plain lists of bits, and whether their answers are alike.
use crate::listed::{Listed, Rule};
use rows::{BitRows, Room, RowsRefusal};
use std::alloc::{AllocError, Global};
use std::fmt;

pub fn said(yes: bool) -> &'static str {
    if yes { "yes" } else { "no" }
}

// How many answers were compared, and how many differed; whether each of the five refusals of the rules came, in the
// order of their numbers; and whether some row was full, and some a whole number of words long.
#[derive(Clone, Copy, Default)]
pub struct Seen {
    pub answers: u32,
    pub differ: u32,
    // five flags and no set: what is seen of an answer takes no memory, so no call fails for want of it
    refused: [bool; 5],
    pub full: bool,
    pub whole: bool,
}

impl Seen {
    // How many of the five refusals came.
    pub fn refusals(&self) -> usize {
        self.refused.iter().filter(|&&came| came).count()
    }

    // The answers of the two stores and of the lists to one call. Refusals are compared by their numbers.
    fn note<T: PartialEq + Drop>(
        &mut self,
        first: Result<T, RowsRefusal>,
        second: Result<T, RowsRefusal>,
        listed: Result<T, Rule>,
    ) {
        if let Err(rule) = listed {
            self.refused[rule.place()] = true;
        }
        let first = first.map_err(RowsRefusal::number);
        let second = second.map_err(RowsRefusal::number);
        let listed = listed.map_err(Rule::number);
        self.answers = self.answers.saturating_add(1);
        if first != listed || second != listed {
            self.differ = self.differ.saturating_add(1);
        }
    }

    // The length of a row with this room.
    fn note_length(&mut self, length: u32, room: Room) {
        self.full = self.full || length > 0 && length == room.bits;
        self.whole = self.whole || length > 0 && length % 64 == 0;
    }
}

impl fmt::Display for Seen {
    fn fmt<W: fmt::Write>(&self, f: &mut fmt::Formatter<W>) -> fmt::Result {
        let answers = self.answers;
        let differ = self.differ;
        let refusals = self.refusals();
        let full = said(self.full);
        let whole = said(self.whole);
        write!(
            f,
            "{answers} answers, {differ} differ, {refusals} refusals of 5, full rows {full}, whole words {whole}"
        )
    }
}

// A number below `bound` from the upper bits of a drawn one, or 0 where there is none.
fn pick(drawn: u64, bound: u32) -> u32 {
    if bound == 0 {
        return 0;
    }
    // below a u32: `u32::try_from` would add a case that never comes
    ((drawn >> 33) % u64::from(bound)) as u32
}

// A congruential generator.
#[derive(Drop)]
struct Random {
    state: u64,
}

impl Random {
    fn draw(&mut self) -> u64 {
        self.state = self
            .state
            .wrapping_mul(6_364_136_223_846_793_005)
            .wrapping_add(1_442_695_040_888_963_407);
        self.state
    }

    fn below(&mut self, bound: u32) -> u32 {
        pick(self.draw(), bound)
    }

    // Draws so many numbers that go unused.
    fn skip(&mut self, count: u32) {
        for _ in 0..count {
            self.draw();
        }
    }
}

// What the puts are like: of at most so many bits, but one in so many of each special kind.
#[derive(Clone, Copy)]
pub struct Puts {
    pub most: u32,
    pub rare: u32,
}

// The special kinds of puts, and the others, of so many bits.
enum Kind {
    // of no bit
    Empty,
    // up to the next multiple of 64
    WholeWords,
    // just enough to fill the row
    Filling,
    // one bit too many
    TooLong,
    Other(u32),
}

impl Kind {
    // The special kind of a drawn number, or one of `other` bits.
    fn drawn(number: u32, other: u32) -> Kind {
        match number {
            0 => Kind::Empty,
            1 => Kind::WholeWords,
            2 => Kind::Filling,
            3 => Kind::TooLong,
            _ => Kind::Other(other),
        }
    }

    // How many bits to put into a row of this length.
    fn bits(self, length: u32, room: Room) -> u32 {
        let left = room.bits.saturating_sub(length);
        match self {
            Kind::Empty => 0,
            Kind::WholeWords => 64 - length % 64,
            Kind::Filling => left,
            Kind::TooLong => left.saturating_add(1),
            Kind::Other(bits) => bits,
        }
    }
}

// Two stores and the plain lists, which get the same calls, and what was seen of their answers.
#[derive(Drop)]
pub struct Comparison<A, B> {
    first: A,
    second: B,
    listed: Listed,
    seen: Seen,
}

impl<A: BitRows + Drop, B: BitRows + Drop> Comparison<A, B> {
    pub fn new(heap: Global, first: A, second: B) -> Result<Comparison<A, B>, AllocError> {
        let listed = Listed::new(heap, first.room())?;
        Ok(Comparison {
            first,
            second,
            listed,
            seen: Seen::default(),
        })
    }

    // The room of the first store, and of the lists.
    pub fn room(&self) -> Room {
        self.first.room()
    }

    fn clear(&mut self) {
        self.first.clear();
        self.second.clear();
        self.listed.clear();
    }

    // The next three give all three a call, and note their answers. They are three functions, since the stores differ in
    // type and no one closure can be called on both.
    fn put(&mut self, row: u32, bit: bool, count: u32) {
        let first = self.first.put(row, bit, count);
        let second = self.second.put(row, bit, count);
        let listed = self.listed.put(row, bit, count);
        self.seen.note(first, second, listed);
    }

    fn length(&mut self, row: u32) {
        let first = self.first.length(row);
        let second = self.second.length(row);
        let listed = self.listed.length(row);
        self.seen.note(first, second, listed);
    }

    fn zeros(&mut self, row: u32, position: u32) {
        let first = self.first.zeros(row, position);
        let second = self.second.zeros(row, position);
        let listed = self.listed.zeros(row, position);
        self.seen.note(first, second, listed);
    }

    // The length of a row in the lists, or 0 where there is no such row.
    fn listed_length(&self, row: u32) -> u32 {
        self.listed.length(row).unwrap_or(0)
    }

    // The length of a row, and the zeros at its start, at its end and past it, at a multiple of 64 and somewhere.
    fn ask(&mut self, row: u32, drawn: u64) {
        let room = self.room();
        let length = self.listed_length(row);
        let past = length.saturating_add(1);
        let somewhere = pick(drawn, past);
        self.seen.note_length(length, room);
        self.length(row);
        for position in [0, length, past, somewhere / 64 * 64, somewhere] {
            self.zeros(row, position);
        }
    }

    // One put, mostly to row 3, and then the questions on its row and on another; now and then a clear before it.
    fn turn(&mut self, random: &mut Random, puts: Puts) {
        let room = self.room();
        if random.below(room.puts.saturating_mul(4).saturating_add(16)) == 0 {
            self.clear();
        }
        let mostly = random.below(4) != 0;
        let any = random.below(9);
        let row = if mostly { 3 } else { any };
        let bit = random.below(2) == 1;
        let number = random.below(puts.rare);
        let other = random.below(puts.most).saturating_add(1);
        let count = Kind::drawn(number, other).bits(self.listed_length(row), room);
        self.put(row, bit, count);
        let drawn = random.draw();
        self.ask(row, drawn);
        self.ask(pick(drawn, 8), random.draw());
    }

    // So many turns. Eight drawn numbers go unused before the first turn, and one after each.
    pub fn run(mut self, seed: u64, turns: u32, puts: Puts) -> Seen {
        let mut random = Random { state: seed };
        random.skip(8);
        for _ in 0..turns {
            self.turn(&mut random, puts);
            random.skip(1);
        }
        self.seen
    }
}
