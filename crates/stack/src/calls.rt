// Calls on the members of a bank, and the line that each leaves: what was called, and what it answered.
ghost use Rattle.std.specs.Prelude.{◌≡◌, ◌++◌, string_bytes, OnOk};
ghost use Rattle.bank.specs.Slots.{bank_refusal};
ghost use Rattle.faultplan.specs.Plans.{add_answer};
ghost use Rattle.stack.specs.Lines.{answer_output, answer_line, add_line};

use bank::{Bank, BankFault};
use faultplan::plan::PlanRefusal;
use faulty::FaultLayer;
use member::Member;
use std::alloc::{AllocError, Global};
use std::fmt;

// What every buffer holds before a read, so that a refused read shows that it left the buffer.
const BEFORE: u8 = 99;

// A call on the member in a slot. The calls of a table are values and no closures: a closure would be made for one kind of bank, and
// a table of them would keep boxed ones.
#[derive(Clone, Copy)]
pub(crate) enum Call {
    Count,
    // of a block
    Look(usize),
    // of a block, into a buffer of so many bytes
    Read(usize, usize),
    // to a block, of so many bytes, each of this value
    Write(usize, usize, u8),
    Tick,
    Fresh,
}

// A line of a table: a heading, which says why the lines below it are as they are, or a call on the member in a slot.
#[derive(Clone, Copy)]
pub(crate) enum Step {
    Why(&'static str),
    On(usize, Call),
}

// What a call answered, as a line says it: 0 where it was accepted, else its refusal.
#[derive(Drop)]
struct Answer<E>(Result<(), E>);

impl<E: fmt::Display> fmt::Display for Answer<E> {
    ghost output = { λ a. answer_output E.output a.0 };

    fn fmt<W: fmt::Write>(&self, f: &mut fmt::Formatter<W>) -> fmt::Result {
        match &self.0 {
            Ok(()) => write!(f, "0"),
            Err(refused) => write!(f, "{refused}"),
        }
    }
}

// The lines so far, and the heap that they and the buffers of the calls are taken from.
#[derive(Drop)]
pub(crate) struct Log {
    heap: Global,
    text: String,
}

impl Log {
    // No lines.
    pub(crate) fn new(heap: Global) -> Log {
        Log {
            heap,
            text: String::new(heap),
        }
    }

    // All lines.
    pub(crate) fn into_text(self) -> String {
        let Log { heap: _, text } = self;
        text
    }

    // A buffer of so many bytes, each of this value.
    pub(crate) fn bytes(&self, value: u8, size: usize) -> Result<Vec<u8>, AllocError> {
        vec![in self.heap; value; size]
    }

    // Appends the line of an entry that a fault layer is given: 0 where it was added, else the refusal.
    fn push_add(
        &mut self,
        round: usize,
        kind: usize,
        block: usize,
        answer: Result<(), PlanRefusal>,
    ) -> Result<(), AllocError>
        ensures made { OnOk result (string_bytes self.new.text ≡ string_bytes self.old.text ++ add_line round kind block (add_answer answer)) }
    {
        let answer = Answer(answer);
        writeln!(self.text, "add {round} {kind} {block}: {answer}")
    }

    // Appends the line of a call, of this name, that has no answer but its refusal.
    fn push_answer(
        &mut self,
        slot: usize,
        name: &str,
        answer: Result<(), BankFault>,
    ) -> Result<(), AllocError>
        ensures made { OnOk result (string_bytes self.new.text ≡ string_bytes self.old.text ++ answer_line slot name.now (bank_refusal answer)) }
    {
        let answer = Answer(answer);
        writeln!(self.text, "slot {slot} {name}: {answer}")
    }

    // Appends the line of a member's count of blocks.
    fn push_count(
        &mut self,
        slot: usize,
        answer: Result<usize, BankFault>,
    ) -> Result<(), AllocError> {
        match answer {
            Ok(blocks) => writeln!(self.text, "slot {slot} count: 0, {blocks} blocks"),
            Err(refused) => writeln!(self.text, "slot {slot} count: {refused}"),
        }
    }

    // Reads a block into a buffer, and appends the line: the answer, and the buffer's first byte, if it has one.
    fn push_read<B: Bank>(
        &mut self,
        bank: &mut B,
        slot: usize,
        block: usize,
        size: usize,
    ) -> Result<(), AllocError> {
        let mut buffer = self.bytes(BEFORE, size)?;
        let answer = Answer(bank.read(slot, block, &mut buffer));
        match buffer.first() {
            Some(byte) => writeln!(
                self.text,
                "slot {slot} read {block} {size}: {answer}, byte {byte}"
            ),
            None => writeln!(self.text, "slot {slot} read {block} {size}: {answer}"),
        }
    }

    // Makes a call on the member in a slot, and appends its line.
    fn push_call<B: Bank>(
        &mut self,
        bank: &mut B,
        slot: usize,
        call: Call,
    ) -> Result<(), AllocError> {
        match call {
            Call::Count => self.push_count(slot, bank.count(slot)),
            Call::Look(block) => {
                let answer = Answer(bank.look(slot, block));
                writeln!(self.text, "slot {slot} look {block}: {answer}")
            }
            Call::Read(block, size) => self.push_read(bank, slot, block, size),
            Call::Write(block, size, byte) => {
                let bytes = self.bytes(byte, size)?;
                let answer = Answer(bank.write(slot, block, &bytes));
                writeln!(
                    self.text,
                    "slot {slot} write {block} {size} {byte}: {answer}"
                )
            }
            Call::Tick => self.push_answer(slot, "tick", bank.tick(slot)),
            Call::Fresh => self.push_answer(slot, "fresh", bank.fresh(slot)),
        }
    }

    // Makes the calls in turn, each on the member in its slot, and appends a line for each, and the headings between them.
    pub(crate) fn drive<B: Bank>(
        &mut self,
        bank: &mut B,
        steps: &[Step],
    ) -> Result<(), AllocError> {
        for step in steps {
            match *step {
                Step::Why(heading) => self.push_heading(heading)?,
                Step::On(slot, call) => self.push_call(bank, slot, call)?,
            }
        }
        Ok(())
    }

    // Adds the entries of round, kind and block to a fault layer in turn, and appends a line for each.
    pub(crate) fn plan<M: Member>(
        &mut self,
        layer: &mut FaultLayer<M>,
        entries: &[(usize, usize, usize)],
    ) -> Result<(), AllocError> {
        for &(round, kind, block) in entries {
            self.push_add(round, kind, block, layer.add(round, kind, block))?;
        }
        Ok(())
    }

    // Appends a heading: why the lines below it are as they are.
    pub(crate) fn push_heading(&mut self, heading: &str) -> Result<(), AllocError> {
        writeln!(self.text, "# {heading}")
    }

    // Appends how many slots a bank has.
    pub(crate) fn push_len<B: Bank>(&mut self, bank: &B) -> Result<(), AllocError> {
        let len = bank.len();
        writeln!(self.text, "bank of {len}")
    }

    // Appends how many bytes a buffer has, and the first of every 512.
    pub(crate) fn push_buffer(&mut self, buffer: &[u8]) -> Result<(), AllocError> {
        let len = buffer.len();
        write!(self.text, "{len} bytes:")?;
        for block in buffer.chunks(512) {
            if let Some(byte) = block.first() {
                write!(self.text, " {byte}")?;
            }
        }
        writeln!(self.text)
    }
}
