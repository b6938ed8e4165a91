// Scripts: bytes that were found to be in the format, and what is asked of them.
ghost use Rattle.std.specs.Prelude.{◌≡◌, ◌≤◌, true, is_ok, IfOk, Some};
ghost use Rattle.notation.specs.Codes.{code_number};
ghost use Rattle.script.specs.Format.{entry_count, operation_count, code_at, is_script, entry_at, operation_at};
ghost use Rattle.script.specs.Encoding.{ReadsBack, WritesBack};
ghost use Rattle.script.specs.Text.{bad_script_words};

use crate::parts::{CodeName, Entry, Operation};
use notation::codes::UnknownCode;
use notation::numbers::{byte_at, number_at};
use std::error::Error;
use std::fmt;

// How many bytes stand before the entries.
const HEAD: usize = 6;

// How many entries and operations a script has at most.
const MOST_ENTRIES: usize = 16;

const MOST_OPERATIONS: usize = 1000;

// That bytes are no script.
#[derive(Clone, Copy, PartialEq, Eq, Debug)]
pub struct BadScript;

impl fmt::Display for BadScript {
    ghost output = { λ _. Some bad_script_words };

    fn fmt<W: fmt::Write>(&self, f: &mut fmt::Formatter<W>) -> fmt::Result {
        write!(f, "bad script")
    }
}

impl Error for BadScript {}

// There is but one BadScript, so that no edit could give another.
impl From<UnknownCode> for BadScript {
    ghost from_gives = { λ _ bad. bad ≡ record {} };

    fn from(_unknown: UnknownCode) -> BadScript {
        BadScript
    }
}

// A script, in the bytes that it was read from, with the numbers that it begins with.
#[derive(Drop)]
pub struct Script {
    bytes: Vec<u8>,
    entries: usize,
    operations: usize,
    code: CodeName,
    ghost good: { is_script bytes.items ≡ true },
    ghost entries_counted: { entries ≡ entry_count bytes.items },
    ghost operations_counted: { operations ≡ operation_count bytes.items },
    ghost code_named: { code_number code ≡ code_at bytes.items },
}

impl Script {
    // The script that the bytes are. Other bytes are let go.
    pub fn parse(bytes: Vec<u8>) -> Result<Script, BadScript>
        ensures answered { is_ok result ≡ is_script bytes.items }
        ensures value { IfOk result (λ s. s.bytes ≡ bytes) }
    {
        let entries = number_at(&bytes, 0);
        let operations = number_at(&bytes, 2);
        let code = CodeName::try_from(number_at(&bytes, 4))?;
        if entries > MOST_ENTRIES || operations > MOST_OPERATIONS {
            return Err(BadScript);
        }
        if bytes.len() != HEAD + entries + 6 * entries + operations + 4 * operations {
            return Err(BadScript);
        }
        Ok(Script {
            bytes,
            entries,
            operations,
            code,
        })
    }

    // How many entries there are.
    pub fn entries(&self) -> usize
        ensures value { result ≡ entry_count self.now.bytes.items }
        ensures few { result ≤ 16 }
    {
        self.entries
    }

    // How many operations there are.
    pub fn operations(&self) -> usize
        ensures value { result ≡ operation_count self.now.bytes.items }
        ensures few { result ≤ 1000 }
    {
        self.operations
    }

    // The code that the volume is to have.
    pub fn code(&self) -> CodeName
        ensures value { code_number result ≡ code_at self.now.bytes.items }
    {
        self.code
    }

    // An entry, or none where there are fewer.
    pub fn entry(&self, i: usize) -> Option<Entry>
        ensures value { result ≡ entry_at self.now.bytes.items i }
    {
        if i >= self.entries {
            return None;
        }
        let triple = HEAD + self.entries + 6 * i;
        Some(Entry {
            kind: byte_at(&self.bytes, HEAD + i),
            round: number_at(&self.bytes, triple),
            slot: number_at(&self.bytes, triple + 2),
            block: number_at(&self.bytes, triple + 4),
        })
    }

    // An operation, or none where there are fewer.
    pub fn operation(&self, i: usize) -> Option<Operation>
        ensures value { result ≡ operation_at self.now.bytes.items i }
    {
        if i >= self.operations {
            return None;
        }
        let acts = HEAD + self.entries + 6 * self.entries;
        let pair = acts + self.operations + 4 * i;
        Some(Operation {
            number: byte_at(&self.bytes, acts + i),
            x: number_at(&self.bytes, pair),
            y: number_at(&self.bytes, pair + 2),
        })
    }
}

// Whatever code, entries and operations are written in the format, the bytes are a script that says just these.
pub fn reads_back()
    ensures stands { ReadsBack }
{}

// Whatever bytes are a script, they are the written form of some code, entries and operations.
pub fn writes_back()
    ensures stands { WritesBack }
{}
