//! Numbers of a fixed width, the highest byte first.
#![tactic(auto, unfolding(crate::specs::Number::number_bytes, crate::specs::Number::number_in))]

ghost use Rattle.std.specs.Prelude.{◌≡◌, ⊤};
ghost use Rattle.cd_types.specs.Number.{IsNumber, number_bytes, number_in};
ghost use Rattle.cd_types.specs.NumberLaw.{number_law};

use crate::Field;
use byteorder::{BigEndian, ByteOrder};

impl Field for u8 {
    ghost form = { IsNumber 1 };

    ghost writable = { λ _. ⊤ };

    ghost longest = { 1 };

    ghost spelled = { number_bytes 1 };

    ghost found_in = { number_in 1 };

    ghost law = { number_law 1 };

    fn front(bytes: &[u8]) -> Option<(u8, &[u8])> {
        let (byte, rest) = bytes.split_first()?;
        Some((*byte, rest))
    }

    fn size(&self) -> usize {
        let _value = *self;
        1
    }

    fn put(&self, into: &mut Vec<u8>) {
        into.push(*self).unwrap();
    }
}

impl Field for u16 {
    ghost form = { IsNumber 2 };

    ghost writable = { λ _. ⊤ };

    ghost longest = { 2 };

    ghost spelled = { number_bytes 2 };

    ghost found_in = { number_in 2 };

    ghost law = { number_law 2 };

    fn front(bytes: &[u8]) -> Option<(u16, &[u8])> {
        if bytes.len() < 2 {
            return None;
        }
        Some((BigEndian::read_u16(bytes), &bytes[2..]))
    }

    fn size(&self) -> usize {
        let _value = *self;
        2
    }

    fn put(&self, into: &mut Vec<u8>) {
        let mut bytes = [0; 2];
        BigEndian::write_u16(&mut bytes, *self);
        into.extend_from_slice(&bytes).unwrap();
    }
}

impl Field for u32 {
    ghost form = { IsNumber 4 };

    ghost writable = { λ _. ⊤ };

    ghost longest = { 4 };

    ghost spelled = { number_bytes 4 };

    ghost found_in = { number_in 4 };

    ghost law = { number_law 4 };

    fn front(bytes: &[u8]) -> Option<(u32, &[u8])> {
        if bytes.len() < 4 {
            return None;
        }
        Some((BigEndian::read_u32(bytes), &bytes[4..]))
    }

    fn size(&self) -> usize {
        let _value = *self;
        4
    }

    fn put(&self, into: &mut Vec<u8>) {
        let mut bytes = [0; 4];
        BigEndian::write_u32(&mut bytes, *self);
        into.extend_from_slice(&bytes).unwrap();
    }
}

impl Field for u64 {
    ghost form = { IsNumber 8 };

    ghost writable = { λ _. ⊤ };

    ghost longest = { 8 };

    ghost spelled = { number_bytes 8 };

    ghost found_in = { number_in 8 };

    ghost law = { number_law 8 };

    fn front(bytes: &[u8]) -> Option<(u64, &[u8])> {
        if bytes.len() < 8 {
            return None;
        }
        Some((BigEndian::read_u64(bytes), &bytes[8..]))
    }

    fn size(&self) -> usize {
        let _value = *self;
        8
    }

    fn put(&self, into: &mut Vec<u8>) {
        let mut bytes = [0; 8];
        BigEndian::write_u64(&mut bytes, *self);
        into.extend_from_slice(&bytes).unwrap();
    }
}
