// Fields of bits, the most significant first, written and read bit by bit.

// Reads the fields of some bytes in turn.
#[derive(Drop)]
pub struct Fields<'a> {
    bytes: &'a [u8],
    // How many bits were read: a slice alone cannot begin within a byte.
    place: usize,
}

impl<'a> Fields<'a> {
    // Begins with the first bit.
    pub fn new(bytes: &'a [u8]) -> Fields<'a> {
        Fields { bytes, place: 0 }
    }

    // The next bit, 0 past the end.
    pub fn bit(&mut self) -> bool {
        let byte = self.bytes.get(self.place / 8).copied().unwrap_or(0);
        let bit = byte >> (7 - self.place % 8) & 1;
        self.place = self.place.saturating_add(1);
        bit == 1
    }

    // The next field of so many bits.
    pub fn take(&mut self, width: usize) -> usize {
        let mut value = 0;
        for _ in 0..width {
            value = value << 1 | usize::from(self.bit());
        }
        value
    }
}

// Writes fields one behind another into bytes that are 0.
#[derive(Drop)]
pub struct FieldWriter<'a> {
    bytes: &'a mut [u8],
    // How many bits were written, for the same reason.
    place: usize,
}

impl<'a> FieldWriter<'a> {
    // Begins with the first bit.
    pub fn new(bytes: &'a mut [u8]) -> FieldWriter<'a> {
        FieldWriter { bytes, place: 0 }
    }

    // Adds a bit; past the end it is lost.
    pub fn put_bit(&mut self, bit: bool) {
        if let Some(byte) = self.bytes.get_mut(self.place / 8) {
            *byte |= u8::from(bit) << (7 - self.place % 8);
        }
        self.place = self.place.saturating_add(1);
    }

    // Adds the lowest `width` bits of a value.
    pub fn put_field(&mut self, width: usize, value: usize) {
        for k in (0..width).rev() {
            self.put_bit(k < 64 && value >> k & 1 == 1);
        }
    }
}
