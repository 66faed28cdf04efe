// A first-in first-out queue in 1 to 256 slots, for records of any kind, wherever the slots lie.
#![tactic(auto)]

mod slots;

ghost use Rattle.queue.specs.Fifo.{empty, full, oldest, put_answer, put_contents, slots_answer, slots_capacity, slots_fit, take_answer, take_contents};
ghost use Rattle.queue.specs.Ring.{capacity, contents, put_items, slot_after, sound, take_first};
ghost use Rattle.std.specs.Prelude.{◌≡◌, ◌<◌, ◌≤◌, [], length, OnErr};

use fault::{Cause, Fault};
pub use slots::Slots;

// The most slots that a queue may have.
pub const MOST_SLOTS: usize = 256;

fn slots_fit(count: usize) -> bool
    ensures { result ≡ slots_fit count }
{
    (1..=MOST_SLOTS).contains(&count)
}

// Whether a queue may be made over so many slots.
pub fn check_slots(count: usize) -> Result<(), Fault>
    ensures { result ≡ slots_answer count }
{
    if slots_fit(count) {
        Ok(())
    } else {
        Err(Fault::of(Cause::BadSlots))
    }
}

// The slot `steps` after `at`, among `count` slots.
fn slot_after(at: usize, steps: usize, count: usize) -> usize
    requires { (at < count) × ((steps ≤ count) × (count ≤ 256)) }
    ensures { result ≡ slot_after at steps count }
{
    let above = at + steps;
    if above < count { above } else { above - count }
}

// A queue of `len` records: the oldest in the slot `first`, each younger one in the slot after.
// With a wrong number of slots, or numbers that do not lie within them, it can hold nothing.
// So every call may be made of every value, and none has a condition.
#[derive(Drop)]
pub struct Queue<S> {
    slots: S,
    first: usize,
    len: usize,
}

impl<S: Slots> Queue<S> {
    // An empty queue over the slots, which stay as they are. Where `check_slots` refuses their
    // number it can hold nothing.
    pub fn over(slots: S) -> Queue<S>
        ensures held { contents S.items result ≡ [] }
        ensures room { capacity S.items result ≡ slots_capacity (length (S.items slots)) }
        ensures store { result.slots ≡ slots }
        ensures first { result.first ≡ 0 }
    {
        Queue {
            slots,
            first: 0,
            len: 0,
        }
    }

    // True of every queue over a right number of slots. No ghost field says so: the type would then take its bound's
    // members along into every clause that names a queue, and the number of slots would be tested still.
    #[tactic(auto, unfolding(crate::specs::Ring::sound))]
    fn is_sound(&self) -> bool
        ensures { result ≡ sound S.items self.now }
    {
        let count = self.slots.count();
        slots_fit(count) && self.first < count && self.len <= count
    }

    // How many records it holds.
    pub fn len(&self) -> usize
        ensures { result ≡ length (contents S.items self.now) }
    {
        if self.is_sound() { self.len } else { 0 }
    }

    // How many records it can hold.
    pub fn capacity(&self) -> usize
        ensures { result ≡ capacity S.items self.now }
    {
        if self.is_sound() {
            self.slots.count()
        } else {
            0
        }
    }

    pub fn is_empty(&self) -> bool
        ensures { result ≡ empty (contents S.items self.now) }
    {
        self.len() == 0
    }

    pub fn is_full(&self) -> bool
        ensures { result ≡ full (capacity S.items self.now) (contents S.items self.now) }
    {
        self.len() >= self.capacity()
    }

    fn oldest(&self) -> Option<S::Item>
        ensures { result ≡ oldest (contents S.items self.now) }
    {
        if self.is_empty() {
            None
        } else {
            self.slots.read(self.first)
        }
    }

    // Puts one record more, as the newest.
    pub fn put(&mut self, x: S::Item) -> Result<(), Fault>
        ensures answer { result ≡ put_answer (capacity S.items self.old) (contents S.items self.old) }
        ensures held { contents S.items self.new ≡ put_contents (capacity S.items self.old) (contents S.items self.old) x }
        ensures room { capacity S.items self.new ≡ capacity S.items self.old }
        ensures store { S.items self.new.slots ≡ put_items S.items self.old x }
        ensures first { self.new.first ≡ self.old.first }
        ensures refused { OnErr result (self.new ≡ self.old) }
    {
        if self.is_full() {
            return Err(Fault::of(Cause::QueueFull));
        }
        let free = slot_after(self.first, self.len, self.slots.count());
        self.slots.write(free, x);
        self.len += 1;
        Ok(())
    }

    // Takes the oldest record, whose slot is free then.
    pub fn take(&mut self) -> Result<S::Item, Fault>
        ensures answer { result ≡ take_answer (contents S.items self.old) }
        ensures held { contents S.items self.new ≡ take_contents (contents S.items self.old) }
        ensures room { capacity S.items self.new ≡ capacity S.items self.old }
        ensures store { self.new.slots ≡ self.old.slots }
        ensures first { self.new.first ≡ take_first S.items self.old }
        ensures refused { OnErr result (self.new ≡ self.old) }
    {
        let x = self.oldest().ok_or(Fault::of(Cause::QueueEmpty))?;
        let count = self.slots.count();
        let next = slot_after(self.first, 1, count);
        self.first = next;
        self.len -= 1;
        Ok(x)
    }
}

#[cfg(test)]
mod tests {
    use super::*;

    #[test]
    fn goes_round(rt: HostRuntime) {
        let mut slots = [0u16; 2];
        assert!(rt; check_slots(slots.len()).is_ok());
        let mut queue = Queue::over(&mut slots[0..2]);
        assert!(rt; queue.put(7).is_ok() && queue.put(8).is_ok());
        assert!(rt; queue.put(9) == Err(Fault::of(Cause::QueueFull)));
        assert!(rt; queue.take() == Ok(7));
        assert!(rt; queue.put(9).is_ok() && queue.is_full());
        assert!(rt; queue.take() == Ok(8));
        assert!(rt; queue.take() == Ok(9));
        assert!(rt; queue.take() == Err(Fault::of(Cause::QueueEmpty)));
    }
}
