// The parts of a volume that is not formatted yet. It can only be asked for its fit and formatted.
ghost use Rattle.std.specs.Prelude.{◌≡◌, replicate};
ghost use Rattle.code.specs.Blocks.{zeros};
ghost use Rattle.bank.specs.Slots.{told};
ghost use Rattle.contents.specs.Answers.{fit_number};
ghost use Rattle.contents.specs.Changes.{FormatChanges};
ghost use Rattle.contents.specs.Refusals.{fitness_number};
ghost use Rattle.contents.specs.Shapes.{formed, Valid, Roomy, FitsVolume};
ghost use Rattle.contents.specs.Theorems.{CountsKept};
ghost use Rattle.contents.specs.Records.{idle_at};
ghost use Rattle.volume.specs.Slots.{members_in, slots_in};
ghost use Rattle.volume.specs.Volumes.{shape, members, frontiers};
ghost use Rattle.volume.specs.Turns.{in_turn};

use crate::size::parts_size;
use crate::slots::SlotTable;
use crate::volume::Volume;
use crate::walks::zero_stripes;
use bank::Bank;
use code::Code;
use contents::Fitness;
use layout::Layout;

// A code, a layout and a bank, from which a volume is formatted.
#[derive(Drop)]
pub struct Blank<C, L, B> {
    code: C,
    layout: L,
    bank: B,
}

impl<C: Code, L: Layout, B: Bank> Blank<C, L, B> {
    // The parts together.
    pub fn new(code: C, layout: L, bank: B) -> Blank<C, L, B>
        ensures code { result.code ≡ code }
        ensures layout { result.layout ≡ layout }
        ensures bank { result.bank ≡ bank }
    {
        Blank { code, layout, bank }
    }

    // Whether the parts fit: four to eighteen slots, a code for so many columns, and no member without blocks.
    pub fn fit(&self) -> Fitness
        ensures value { fitness_number result ≡ fit_number (told (slots_in B.Bank self.now.bank).size) (C.Code.coding self.now.code).limit (members_in B.Bank self.now.bank) }
    {
        match parts_size(&self.code, &self.bank) {
            Some(_) => Fitness::Fit,
            None => Fitness::Unfit,
        }
    }

    // A volume of these parts, with zeros in every block that its member takes. Parts that do not fit give one without slots.
    pub fn format(self) -> Volume<C, L, B>
        ensures code { result.code ≡ self.code }
        ensures layout { result.layout ≡ self.layout }
        ensures shape { shape C.Code L.Layout result ≡ formed (C.Code.coding self.code) (L.Layout.slot self.layout) (L.Layout.column self.layout) (told (slots_in B.Bank self.bank).size) (members_in B.Bank self.bank) }
        ensures table { result.table.rows ≡ replicate 18 (idle_at (shape C.Code L.Layout result).stripes) }
        ensures exact { B.Bank.state result.bank ≡ in_turn (λ t s. in_turn (λ u i. B.Bank.wrote u i s zeros) (shape C.Code L.Layout result).slots t) (shape C.Code L.Layout result).stripes (B.Bank.state self.bank) }
        ensures changes { FormatChanges (shape C.Code L.Layout result) (members_in B.Bank self.bank) (members B.Bank result) }
        ensures fits { FitsVolume (shape C.Code L.Layout result) (members B.Bank result) (frontiers result) (λ _. zeros) }
        ensures counts { CountsKept (members_in B.Bank self.bank) (members B.Bank result) }
        ensures valid { Valid (shape C.Code L.Layout result) }
        ensures roomy { Roomy (shape C.Code L.Layout result) (members B.Bank result) }
    {
        let Blank {
            code,
            layout,
            mut bank,
        } = self;
        let size = parts_size(&code, &bank).unwrap_or_default();
        zero_stripes(&mut bank, size.slots, size.stripes);
        Volume {
            code,
            layout,
            size,
            table: SlotTable::idle(size.stripes),
            bank,
        }
    }
}
