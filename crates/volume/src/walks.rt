// Walks over all slots of a bank, in slot order.
ghost use Rattle.std.specs.Prelude.{◌≡◌};
ghost use Rattle.code.specs.Blocks.{zeros};
ghost use Rattle.member.specs.Changes.{Ticked, Written};
ghost use Rattle.contents.specs.Changes.{Steps, Moved};
ghost use Rattle.contents.specs.Shapes.{smallest};
ghost use Rattle.volume.specs.Slots.{members_in};
ghost use Rattle.volume.specs.Turns.{in_turn};

use bank::Bank;
use code::BLOCK;
use member::MOST_BLOCKS;

// How many blocks the member in a slot has; none where there is no such slot.
pub fn count_at<B: Bank>(bank: &B, slot: usize) -> usize
    ensures value { result ≡ (members_in B.Bank bank.now slot).count }
{
    bank.count(slot).unwrap_or(0)
}

// The smallest count of the first `n` members.
pub fn smallest_count<B: Bank>(bank: &B, n: usize) -> usize
    ensures value { result ≡ smallest (members_in B.Bank bank.now) n }
{
    (0..n)
        .map(|slot| count_at(bank, slot))
        .fold(MOST_BLOCKS, |least, count| least.min(count))
}

// Ticks the members in the first `n` slots.
pub fn tick_slots<B: Bank>(bank: &mut B, n: usize)
    ensures exact { B.Bank.state bank.new ≡ in_turn B.Bank.ticked n (B.Bank.state bank.old) }
    ensures ticked { Steps n (λ i. Moved Ticked i) (members_in B.Bank bank.old) (members_in B.Bank bank.new) }
{
    for slot in 0..n {
        let _ = bank.tick(slot);
    }
}

// Writes zeros to block `s` of the first `n` slots; what a member refuses is left.
pub fn zero_stripe<B: Bank>(bank: &mut B, n: usize, s: usize)
    ensures exact { B.Bank.state bank.new ≡ in_turn (λ t i. B.Bank.wrote t i s zeros) n (B.Bank.state bank.old) }
    ensures zeroed { Steps n (λ i. Moved (λ a b. Written a s zeros b) i) (members_in B.Bank bank.old) (members_in B.Bank bank.new) }
{
    let zero = [0u8; BLOCK];
    for slot in 0..n {
        let _ = bank.write(slot, s, &zero);
    }
}

// Writes zeros to the first `stripes` blocks of the first `n` slots, stripe by stripe.
pub fn zero_stripes<B: Bank>(bank: &mut B, n: usize, stripes: usize)
    ensures exact { B.Bank.state bank.new ≡ in_turn (λ t s. in_turn (λ u i. B.Bank.wrote u i s zeros) n t) stripes (B.Bank.state bank.old) }
    ensures zeroed { Steps stripes (λ s. Steps n (λ i. Moved (λ a b. Written a s zeros b) i)) (members_in B.Bank bank.old) (members_in B.Bank bank.new) }
{
    for s in 0..stripes {
        zero_stripe(bank, n, s);
    }
}
