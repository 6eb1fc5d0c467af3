// The journal: document 01's history. Its counters stay in range and its unused slots blank.
ghost use Rattle.std.specs.Prelude.{◌≡◌, ◌<◌};
ghost use Rattle.book.specs.Journal.{journal_size, slot_before, slot_after, age, one_more, pushed, popped, latest};

use super::{Journal, Record, Reversal};

pub fn slot_after(slot: usize) -> usize
    requires { slot < journal_size }
    ensures { result ≡ slot_after slot }
{
    (slot + 1) % Journal::SIZE
}

pub fn slot_before(slot: usize) -> usize
    requires { slot < journal_size }
    ensures { result ≡ slot_before slot }
{
    (slot + (Journal::SIZE - 1)) % Journal::SIZE
}

// How many entries came after that of a slot, where next is the slot of the next one.
pub(crate) fn slot_age(next: usize, slot: usize) -> usize
    requires { (next < journal_size) × (slot < journal_size) }
    ensures { result ≡ age next slot }
{
    (next + (Journal::SIZE - 1) - slot) % Journal::SIZE
}

// One edit more, but not above the size.
pub fn one_more(count: usize) -> usize
    ensures { result ≡ one_more count }
{
    count.min(Journal::SIZE - 1) + 1
}

impl Journal {
    // How many edits it keeps.
    pub const SIZE: usize = 64;

    // An edit goes on; where the journal is full it pushes out the oldest.
    pub fn push(mut self, e: Reversal) -> Journal
        requires { self.next < journal_size }
        ensures { result ≡ pushed self e }
    {
        self.entries[self.next] = e;
        self.next = slot_after(self.next);
        self.count = one_more(self.count);
        self
    }

    // The latest comes off, and its slot is blank again.
    pub fn pop(mut self) -> Journal
        requires { (0 < self.count) × (self.next < journal_size) }
        ensures { result ≡ popped self }
    {
        self.next = slot_before(self.next);
        self.entries[self.next] = Reversal {
            place: 0,
            prior: Record::Empty,
        };
        self.count -= 1;
        self
    }

    pub fn last(self) -> Reversal
        requires { self.next < journal_size }
        ensures { result ≡ latest self }
    {
        self.entries[slot_before(self.next)]
    }
}
