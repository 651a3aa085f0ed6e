#![tactic(auto)]
// Compares the two stores of bit rows with each other and with plain lists of bits.
mod append;
mod compare;
mod listed;

use compare::{Comparison, Puts, said};
use plain_rows::PlainRows;
use rows::{LentRows, Room};
use run_rows::RunRows;

// A room, the puts, and a seed. The last room is refused, so that the stores have none.
const CASES: [(u32, u32, u32, u32, u64); 11] = [
    (1, 1, 4, 40, 1),
    (1, 64, 64, 40, 2),
    (1, 5_000, 4_000, 40, 3),
    (3, 65, 30, 40, 4),
    (20, 297, 40, 40, 5),
    (20, 320, 40, 40, 6),
    (64, 6_400, 200, 400, 7),
    (12, 20_000, 4_000, 40, 8),
    (512, 2_560, 8, 2_000, 9),
    (512, 20_000, 60, 2_000, 10),
    (0, 64, 40, 40, 11),
];

const TURNS: u32 = 20_000;

// What the words hold that no store uses.
const BEYOND: u64 = 7;

// Whether the words from `used` on are as they were.
fn kept(words: &[u64], used: usize) -> bool {
    words.iter().skip(used).all(|&word| word == BEYOND)
}

fn print_case(rt: &HostRuntime, room: Room, like: Puts, seed: u64) -> anyhow::Result<()> {
    let heap = rt.alloc();
    let mut words = vec![in heap; BEYOND; 4_100]?;
    let mut more = vec![in heap; BEYOND; 5_100]?;
    let by_run = RunRows::new(room, &mut words);
    let by_plain = PlainRows::new(room, &mut more);
    let comparison = Comparison::new(heap, by_run, by_plain)?;
    let granted = comparison.room();
    let seen = comparison.run(seed, TURNS, like);
    let puts = room.puts;
    let bits = room.bits;
    // the numbers of words are written out here, beside what the stores say of themselves
    let beyond = said(
        kept(&words, 8 * granted.puts as usize)
            && kept(&more, 16 * granted.bits.div_ceil(64) as usize),
    );
    println!(rt; "R {puts}, W {bits}: {seen}, words beyond kept {beyond}")?;
    Ok(())
}

fn main(rt: HostRuntime) -> anyhow::Result<()> {
    for (puts, bits, most, rare, seed) in CASES {
        print_case(&rt, Room { puts, bits }, Puts { most, rare }, seed)?;
    }
    Ok(())
}

#[cfg(test)]
mod tests {
    use super::*;
    use crate::append::{Run, append, plain_words, rewrite, run_words, words_after};
    use rows::{BitRows, Footprint, RowsRefusal};
    use std::process::Abort;

    // 66 bits: 3 zeros, 61 ones, a zero and a one
    const RUNS: [Run; 4] = [
        Run {
            bit: false,
            count: 3,
        },
        Run {
            bit: true,
            count: 61,
        },
        Run {
            bit: false,
            count: 1,
        },
        Run {
            bit: true,
            count: 1,
        },
    ];

    // positions, and how many of the bits before them are 0
    const ZEROS: [(u32, u32); 9] = [
        (0, 0),
        (1, 1),
        (2, 2),
        (3, 3),
        (4, 3),
        (63, 3),
        (64, 3),
        (65, 4),
        (66, 4),
    ];

    const ROOM: Room = Room { puts: 4, bits: 130 };

    // What is answered, or the number of the refusal.
    fn by_number<T>(answer: Result<T, RowsRefusal>) -> Result<T, u32> {
        answer.map_err(RowsRefusal::number)
    }

    fn run_over<S: BitRows>(rt: &impl Abort, rows: &mut S) {
        assert_eq!(rt; by_number(append(rows, 8, &RUNS)), Err(23));
        assert_eq!(rt; append(rows, 1, &RUNS), Ok(()));
        assert_eq!(rt; by_number(append(rows, 1, &RUNS)), Err(25));
        assert_eq!(rt; rewrite(rows, 1, &RUNS), Ok(()));
        assert_eq!(rt; rows.length(1), Ok(66));
        for (position, zeros) in ZEROS {
            assert_eq!(rt; rows.zeros(1, position), Ok(zeros));
        }
        assert_eq!(rt; by_number(rows.zeros(1, 67)), Err(27));
        // the other rows are empty
        assert_eq!(rt; rows.length(0), Ok(0));
        assert_eq!(rt; rows.length(2), Ok(0));
        assert_eq!(rt; rows.zeros(0, 0), Ok(0));
        assert_eq!(rt; by_number(rows.zeros(0, 1)), Err(27));
    }

    // One generic function, over both stores.
    #[test]
    fn runs_over_both(rt: HostRuntime) {
        let mut few = [7u64; 32];
        let mut more = [7u64; 48];
        run_over(&rt, &mut RunRows::new(ROOM, &mut few));
        run_over(&rt, &mut PlainRows::new(ROOM, &mut more));
    }

    fn refuses<S: BitRows>(rt: &impl Abort, rows: &mut S) {
        assert_eq!(rt; rows.room(), ROOM);
        // 23 comes before 24 and 27, 24 before 25 and 26, 25 before 26
        assert_eq!(rt; by_number(rows.put(8, true, 0)), Err(23));
        assert_eq!(rt; by_number(rows.put(u32::MAX, true, 131)), Err(23));
        assert_eq!(rt; by_number(rows.length(8)), Err(23));
        assert_eq!(rt; by_number(rows.zeros(8, 1)), Err(23));
        assert_eq!(rt; by_number(rows.put(7, true, 0)), Err(24));
        assert_eq!(rt; by_number(rows.put(7, true, 131)), Err(26));
        assert_eq!(rt; by_number(rows.put(7, true, u32::MAX)), Err(26));
        assert_eq!(rt; rows.put(7, true, 127), Ok(()));
        assert_eq!(rt; by_number(rows.put(7, false, 4)), Err(26));
        for _ in 0..3 {
            assert_eq!(rt; rows.put(7, false, 1), Ok(()));
        }
        assert_eq!(rt; by_number(rows.put(7, false, 0)), Err(24));
        assert_eq!(rt; by_number(rows.put(7, false, 1)), Err(25));
        assert_eq!(rt; by_number(rows.put(7, false, 131)), Err(25));
        assert_eq!(rt; rows.length(7), Ok(130));
        assert_eq!(rt; rows.zeros(7, 130), Ok(3));
        assert_eq!(rt; rows.zeros(7, 127), Ok(0));
        assert_eq!(rt; by_number(rows.zeros(7, 131)), Err(27));
        rows.clear();
        assert_eq!(rt; rows.length(7), Ok(0));
        assert_eq!(rt; rows.put(7, false, 130), Ok(()));
        assert_eq!(rt; rows.zeros(7, 130), Ok(130));
    }

    #[test]
    fn refusals(rt: HostRuntime) {
        let mut few = [7u64; 32];
        let mut more = [7u64; 48];
        refuses(&rt, &mut RunRows::new(ROOM, &mut few));
        refuses(&rt, &mut PlainRows::new(ROOM, &mut more));
    }

    // puts, bits, words, and what the checks of the two stores say, by number
    const CHECKS: [(u32, u32, usize, Result<(), u32>, Result<(), u32>); 12] = [
        (0, 64, 60, Err(21), Err(21)),
        (513, 64, 60, Err(21), Err(21)),
        (4, 0, 60, Err(21), Err(21)),
        (4, 33_554_433, 60, Err(21), Err(21)),
        (0, 0, 0, Err(21), Err(21)),
        (u32::MAX, u32::MAX, 0, Err(21), Err(21)),
        (4, 130, 31, Err(22), Err(22)),
        (4, 130, 32, Ok(()), Err(22)),
        (4, 130, 47, Ok(()), Err(22)),
        (4, 130, 48, Ok(()), Ok(())),
        (4, 128, 32, Ok(()), Ok(())),
        (512, 33_554_432, 60, Err(22), Err(22)),
    ];

    // A store is made with its room where the check passes, and with none where it does not.
    fn made<S: BitRows>(rt: &impl Abort, rows: &mut S, room: Room, checked: Result<(), u32>) {
        if checked.is_ok() {
            assert_eq!(rt; rows.room(), room);
            return;
        }
        assert_eq!(rt; rows.room(), Room { puts: 0, bits: 0 });
        assert_eq!(rt; by_number(rows.put(8, true, 1)), Err(23));
        assert_eq!(rt; by_number(rows.put(0, true, 0)), Err(24));
        assert_eq!(rt; by_number(rows.put(0, true, 1)), Err(25));
        assert_eq!(rt; by_number(rows.put(7, false, u32::MAX)), Err(25));
        assert_eq!(rt; rows.length(0), Ok(0));
        assert_eq!(rt; rows.zeros(0, 0), Ok(0));
        assert_eq!(rt; by_number(rows.zeros(0, 1)), Err(27));
    }

    #[test]
    fn checks(rt: HostRuntime) {
        for (puts, bits, lent, by_run, by_plain) in CHECKS {
            let room = Room { puts, bits };
            let mut words = [BEYOND; 60];
            assert!(rt; lent <= words.len());
            let words = &mut words[..lent];
            assert_eq!(rt; by_number(RunRows::check(room, words)), by_run);
            assert_eq!(rt; by_number(PlainRows::check(room, words)), by_plain);
            made(&rt, &mut RunRows::new(room, words), room, by_run);
            made(&rt, &mut PlainRows::new(room, words), room, by_plain);
        }
    }

    // A making that the check refuses, by 21 or by 22, leaves the words as they are.
    #[test]
    fn no_room(rt: HostRuntime) {
        let mut words = [BEYOND; 60];
        let room = Room {
            puts: 513,
            bits: 64,
        };
        run_words(room, &mut words, 1, &RUNS);
        assert!(rt; kept(&words, 0));
        plain_words(room, &mut words, 1, &RUNS);
        assert!(rt; kept(&words, 0));
        let mut few = [BEYOND; 31];
        run_words(ROOM, &mut few, 1, &RUNS);
        assert!(rt; kept(&few, 0));
        let mut more = [BEYOND; 47];
        plain_words(ROOM, &mut more, 1, &RUNS);
        assert!(rt; kept(&more, 0));
    }

    // The words up to `used` are 0 but for some, and the others as they were.
    fn are(rt: &impl Abort, words: &[u64], used: usize, holds: &[(usize, u64)]) {
        assert_eq!(rt; words.len(), 60);
        for (i, &word) in words.iter().enumerate() {
            let unset = if i < used { 0 } else { BEYOND };
            let held = holds.iter().find(|&&(at, _)| at == i);
            assert_eq!(rt; word, held.map_or(unset, |&(_, held)| held));
        }
    }

    // R = 4, so 32 words are used and row 1 has the words 4 to 7
    const PUT_WORDS: [(usize, u64); 4] = [
        (4, 12_884_901_891),
        (5, 274_877_906_947),
        (6, 279_172_874_244),
        (7, 283_467_841_540),
    ];

    // W = 130, so L = 3, 48 words are used, and row 1 has the words 6 to 8 of bits and 9 to 11 of counts
    const BIT_WORDS: [(usize, u64); 3] = [(6, 18_446_744_073_709_551_608), (7, 2), (10, 3)];

    #[test]
    fn words_of_puts(rt: HostRuntime) {
        let mut words = [BEYOND; 60];
        run_words(ROOM, &mut words, 1, &RUNS);
        are(&rt, &words, 32, &PUT_WORDS);
    }

    #[test]
    fn words_of_bits(rt: HostRuntime) {
        let mut words = [BEYOND; 60];
        plain_words(ROOM, &mut words, 1, &RUNS);
        are(&rt, &words, 48, &BIT_WORDS);
    }

    // A store that gives its words back leaves in them what one that is dropped does.
    #[test]
    fn words_given_back(rt: HostRuntime) {
        let mut words = [BEYOND; 60];
        are(
            &rt,
            words_after::<RunRows>(ROOM, &mut words, 1, &RUNS),
            32,
            &PUT_WORDS,
        );
        let mut words = [BEYOND; 60];
        are(
            &rt,
            words_after::<PlainRows>(ROOM, &mut words, 1, &RUNS),
            48,
            &BIT_WORDS,
        );
    }

    fn run_and_clear<S: BitRows>(rt: &impl Abort, rows: &mut S) {
        run_over(rt, rows);
        rows.clear();
    }

    // A clear sets the words in use to 0, and no other.
    #[test]
    fn cleared_words(rt: HostRuntime) {
        let mut words = [BEYOND; 60];
        run_and_clear(&rt, &mut RunRows::new(ROOM, &mut words));
        are(&rt, &words, 32, &[]);
        let mut words = [BEYOND; 60];
        run_and_clear(&rt, &mut PlainRows::new(ROOM, &mut words));
        are(&rt, &words, 48, &[]);
    }
}
