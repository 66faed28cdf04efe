// Where the records of a queue lie: slots that a caller lends, slots on the heap, or an array.
ghost use Rattle.std.specs.Prelude.{◌≡◌, List, length, slice_get, slice_set};

// A row of slots, each with a record, counted from 0. No slice is asked for, so that memory which lends none, such as
// that behind a device's driver, can be a store too.
pub trait Slots {
    type Item: Copy;

    ghost items: { Self → List Self.Item };

    fn count(&self) -> usize
        ensures { result ≡ length (items self.now) };

    // The record of a slot, or none past the last slot.
    fn read(&self, at: usize) -> Option<Self::Item>
        ensures { result ≡ slice_get (items self.now) at };

    // Writes one slot; past the last slot it writes nothing.
    fn write(&mut self, at: usize, x: Self::Item)
        ensures { items self.new ≡ slice_set (items self.old) at x };
}

fn read_at<T: Copy>(all: &[T], at: usize) -> Option<T>
    ensures { result ≡ slice_get all.now at }
{
    all.get(at).copied()
}

#[tactic(auto, using(std::proofs::lemmas::List::set_past))]
fn write_at<T: Copy>(all: &mut [T], at: usize, x: T)
    ensures { all.new ≡ slice_set all.old at x }
{
    if at < all.len() {
        all[at] = x;
    }
}

// Slots that a caller lends.
impl<'a, T: Copy> Slots for &'a mut [T] {
    type Item = T;

    ghost items = { λ s. s.now };

    fn count(&self) -> usize {
        self.len()
    }

    fn read(&self, at: usize) -> Option<T> {
        read_at(self, at)
    }

    fn write(&mut self, at: usize, x: T) {
        write_at(self, at, x);
    }
}

// Slots on the heap.
impl<T: Copy> Slots for Vec<T> {
    type Item = T;

    ghost items = { λ s. s.items };

    fn count(&self) -> usize {
        self.len()
    }

    fn read(&self, at: usize) -> Option<T> {
        read_at(self, at)
    }

    fn write(&mut self, at: usize, x: T) {
        write_at(self.as_mut_slice(), at, x);
    }
}

// Slots inside the queue itself.
impl<T: Copy, const N: usize> Slots for [T; N] {
    type Item = T;

    ghost items = { λ s. s };

    fn count(&self) -> usize {
        self.as_slice().len()
    }

    fn read(&self, at: usize) -> Option<T> {
        read_at(self.as_slice(), at)
    }

    fn write(&mut self, at: usize, x: T) {
        write_at(self.as_mut_slice(), at, x);
    }
}
