// The words of a line, and what stands before the '/' and behind it. Every function here takes any bytes and any places.
use arrayvec::ArrayVec;

// A word as far as it is read.
pub trait Word: Copy {
    type Value: Copy + Default + Drop;

    // The word that a byte begins.
    fn begun(byte: u8) -> Self;

    // The word with one byte more, or None where the byte ends it.
    fn longer(self, byte: u8) -> Option<Self>;

    // What it stands for, and how often, if it is a word.
    fn value(self) -> Option<(Self::Value, u32)>;
}

// The values of a call, as far as there is room, and how many of them stand before the last '/'.
#[derive(Drop)]
pub struct Values<T: Drop, const N: usize> {
    values: ArrayVec<T, N>,
    slash: usize,
}

impl<T: Copy + Default + Drop, const N: usize> Values<T, N> {
    // None so far.
    pub fn new() -> Values<T, N> {
        Values {
            values: ArrayVec::new(),
            slash: 0,
        }
    }

    // Puts a word behind those that are there.
    fn put<W: Word<Value = T>>(&mut self, word: W) {
        if let Some((value, times)) = word.value() {
            // One by one: `extend` asks that the size of a value is known.
            for _ in 0..times {
                if self.values.try_push(value).is_err() {
                    return;
                }
            }
        }
    }

    // Reads the values of a call, into place: a copy of them is as large as the buffer of a line.
    pub fn read<W: Word<Value = T>>(&mut self, call: &[u8]) {
        let mut word = W::begun(b' ');
        for byte in call {
            if let Some(longer) = word.longer(*byte) {
                word = longer;
            } else {
                self.put(word);
                if *byte == b'/' {
                    self.slash = self.values.len();
                }
                word = W::begun(*byte);
            }
        }
        self.put(word);
    }

    // Takes some values, each in another form, with the place of their '/'.
    pub fn take_all<U: Copy + Default + Drop, F: Fn(U) -> T>(
        &mut self,
        values: &Values<U, N>,
        form: F,
    )
        requires { F.IsAlwaysCallable form }
    {
        for value in values.all() {
            if self.values.try_push(form(*value)).is_err() {
                break;
            }
        }
        self.slash = values.slash;
    }

    // The value at a place, 0 behind the end.
    pub fn at(&self, place: usize) -> T {
        self.values.get(place).copied().unwrap_or_default()
    }

    // All values.
    pub fn all(&self) -> &[T] {
        self.values.as_slice()
    }

    // Those from a place up to the '/'.
    pub fn before_slash(&self, from: usize) -> &[T] {
        self.values.get(from..self.slash).unwrap_or(&[])
    }

    // Those behind the '/'.
    pub fn behind_slash(&self) -> &[T] {
        self.values.get(self.slash..).unwrap_or(&[])
    }
}
