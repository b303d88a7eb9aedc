//! Worked examples of room that is made before a word is added, and of counted reads of words.
use std::process::Abort;
use xw_letters::letter::Letter;
use xw_words::WordFault;
use xw_words::bank::{Added, Bank};
use xw_words::counted::Counted;
use xw_words::rows::Rows;

/// A call to a bank, with its answer.
#[derive(Clone, Copy)]
enum Call {
    Reserve(usize, Result<(), WordFault>),
    Judge(&'static [u8], Result<Added, WordFault>),
    Add(&'static [u8], Result<Added, WordFault>),
    Strike(&'static [u8], Result<usize, WordFault>),
}

/// Whether a call has the outcome that the table says.
fn goes(bank: &mut Bank, call: Call) -> bool {
    match call {
        Call::Reserve(count, wanted) => bank.reserve(count) == wanted,
        Call::Judge(text, wanted) => bank.judge_add(text) == wanted,
        Call::Add(text, wanted) => bank.add(text, None) == wanted,
        Call::Strike(text, wanted) => bank.strike(text) == wanted,
    }
}

/// Makes the calls of a table and checks their answers.
fn pass(rt: &impl Abort, bank: &mut Bank, calls: &[Call], name: &str) {
    for (index, call) in calls.iter().enumerate() {
        assert!(rt; goes(bank, *call), "{name}: call {index} failed");
    }
}

const ROOM: &[Call] = &[
    Call::Reserve(1, Err(WordFault::Length)),
    Call::Reserve(256, Err(WordFault::Length)),
    Call::Reserve(255, Ok(())),
    Call::Judge(b"co", Ok(Added::New(0))),
    Call::Add(b"co", Ok(Added::New(0))),
    Call::Judge(b"CO", Err(WordFault::Known)),
    Call::Strike(b"Co", Ok(0)),
    Call::Judge(b"CO", Ok(Added::Returned(0))),
    Call::Add(b"cO", Ok(Added::Returned(0))),
];

#[test]
fn room_made_before_a_word(rt: HostRuntime) -> Result<(), WordFault> {
    let mut bank = Bank::new(rt.alloc())?;
    pass(&rt, &mut bank, ROOM, "room_made_before_a_word");
    Ok(())
}

const ALPHABET: &[u8; 26] = b"ABCDEFGHIJKLMNOPQRSTUVWXYZ";

/// The word at an index of AA, BA and so on to ZA, and AB to ZB.
fn pair(index: usize) -> [u8; 2] {
    [ALPHABET[index % 26], ALPHABET[index / 26 % 26]]
}

fn add_pairs(rt: &impl Abort, bank: &mut Bank, count: usize) {
    for index in 0..count {
        let added = bank.add(&pair(index), None);
        assert!(rt;
            added == Ok(Added::New(index)),
            "word {index} of {count} was not added"
        );
    }
}

/// A read of words of two letters, with its answer.
#[derive(Clone, Copy)]
enum Read {
    /// The position and chunk of a read of the column of C, and its bits.
    Column(usize, usize, u64),
    Active(usize, u64),
}

const OF_SIXTY_FIVE: &[Read] = &[
    Read::Column(1, 0, 0xFFF0_0000_0000_0000),
    Read::Column(1, 1, 1),
    Read::Active(0, u64::MAX),
    Read::Active(1, 0),
    Read::Column(2, 0, 0),
    Read::Column(1, usize::MAX, 0),
];

fn reads(rows: &mut Counted<'_>, letter: Letter, read: Read) -> bool {
    match read {
        Read::Column(position, chunk, bits) => rows.column(2, position, letter, chunk) == bits,
        Read::Active(chunk, bits) => rows.active(2, chunk) == bits,
    }
}

/// Makes the reads of a table. Each takes one tick.
fn read_each(rt: &impl Abort, bank: &Bank, letter: Letter, table: &[Read]) {
    let mut rows = Counted::new(bank, 0);
    for (index, read) in table.iter().enumerate() {
        assert!(rt;
            reads(&mut rows, letter, *read),
            "wrong answer to read {index}"
        );
    }
    assert!(rt; rows.spent() == table.len() as u64);
}

#[test]
fn sixty_five_words(rt: HostRuntime) -> Result<(), WordFault> {
    let mut bank = Bank::new(rt.alloc())?;
    add_pairs(&rt, &mut bank, 65);
    pass(
        &rt,
        &mut bank,
        &[Call::Strike(b"MC", Ok(64))],
        "sixty_five_words",
    );
    let letter = Letter::of(b'c').expect(&rt, "C is a letter");
    read_each(&rt, &bank, letter, OF_SIXTY_FIVE);
    Ok(())
}
