// The call of a line: its name, and the words behind it.
use crate::{list_calls, path_calls, plan_calls, table_calls, tally_calls};
use program_console::output;
use program_lines::words::Words;
use program_lines::{WordError, words};
use std::alloc::{AllocError, Global};
use std::io;

// Room for a query twice as long as the longest that compiles, and for a table of 8,192 nodes. A plan, a pool and a text have room for one byte more than the
// longest that is accepted.
pub const QUERY_ROOM: usize = 8192;

const TABLE_ROOM: usize = 196608;

pub const LARGE_ROOM: usize = 65536;

// Why a line has no answer.
#[derive(Drop)]
pub enum Fault {
    BadLine,
    // A word does not fit its room.
    TooLong,
    // Memory ran out, or a write failed.
    Io(io::Error),
}

impl From<WordError> for Fault {
    fn from(error: WordError) -> Fault {
        match error {
            WordError::Bad => Fault::BadLine,
            WordError::TooLong => Fault::TooLong,
            WordError::OutOfMemory => Fault::Io(io::Error::from(AllocError)),
        }
    }
}

impl From<io::Error> for Fault {
    fn from(error: io::Error) -> Fault {
        Fault::Io(error)
    }
}

impl From<AllocError> for Fault {
    fn from(error: AllocError) -> Fault {
        Fault::Io(io::Error::from(error))
    }
}

// What a line calls.
#[derive(Clone, Copy)]
enum Call {
    Table,
    Records,
    Texts,
    Text,
    Key,
    Path,
    Compile,
    Plan,
    Run,
    Select,
    Take,
}

impl TryFrom<&[u8]> for Call {
    type Error = Fault;

    fn try_from(name: &[u8]) -> Result<Call, Fault> {
        match name {
            b"table" => Ok(Call::Table),
            b"records" => Ok(Call::Records),
            b"texts" => Ok(Call::Texts),
            b"text" => Ok(Call::Text),
            b"key" => Ok(Call::Key),
            b"path" => Ok(Call::Path),
            b"compile" => Ok(Call::Compile),
            b"plan" => Ok(Call::Plan),
            b"run" => Ok(Call::Run),
            b"select" => Ok(Call::Select),
            b"take" => Ok(Call::Take),
            _ => Err(Fault::BadLine),
        }
    }
}

impl Call {
    // How many words its line has.
    fn words(self) -> usize {
        match self {
            Call::Table | Call::Records | Call::Texts | Call::Plan => 3,
            Call::Text | Call::Key | Call::Compile => 4,
            Call::Path | Call::Take => 5,
            Call::Select => 6,
            Call::Run => 7,
        }
    }
}

// A table and its text.
#[derive(Drop)]
pub struct Lent {
    pub table: Vec<u8>,
    pub text: Vec<u8>,
}

impl Lent {
    // Reads both.
    pub fn read(alloc: Global, words: &mut Words) -> Result<Lent, WordError> {
        let table = words.bytes(alloc, TABLE_ROOM)?;
        let text = words.bytes(alloc, LARGE_ROOM)?;
        Ok(Lent { table, text })
    }
}

// Answers a line.
pub fn answer(rt: &impl Print, alloc: Global, line: &[u8]) -> Result<(), Fault> {
    let mut words = Words::new(line);
    let name = words.next_word().ok_or(WordError::Bad)?;
    let call = Call::try_from(name)?;
    if words::count(line) != call.words() {
        return Err(Fault::BadLine);
    }
    match call {
        Call::Table => table_calls::check_table(rt, alloc, words),
        Call::Records => table_calls::check_records(rt, alloc, words),
        Call::Texts => table_calls::check_texts(rt, alloc, words),
        Call::Text => table_calls::text(rt, alloc, words),
        Call::Key => table_calls::key(rt, alloc, words),
        Call::Path => path_calls::answer(rt, alloc, words),
        Call::Compile => plan_calls::compile(rt, alloc, words),
        Call::Plan => plan_calls::check(rt, alloc, words),
        Call::Run => list_calls::run(rt, alloc, words),
        Call::Select => list_calls::select(rt, alloc, words),
        Call::Take => tally_calls::take(rt, alloc, words),
    }
}

// Writes that a line has no answer.
pub fn show_fault(rt: &impl Print, fault: Fault) -> io::Result<()> {
    match fault {
        Fault::BadLine => output::text(rt, b"bad line\n"),
        Fault::TooLong => output::text(rt, b"too long\n"),
        Fault::Io(error) => Err(error),
    }
}
