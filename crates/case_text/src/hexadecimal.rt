// Hexadecimal: bytes by two digits each, floats by the digits of their bits.

// The weight of a float's sign, and the bits of infinity: those of a NaN are above them, but for the sign.
const SIGN: u64 = 0x8000_0000_0000_0000;

const INFINITY: u64 = 0x7ff0_0000_0000_0000;

// The byte of two digits.
pub fn byte(high: u8, low: u8) -> Option<u8> {
    let mut bytes = [0u8];
    let digits: &[u8] = &[high, low];
    hex::decode_to_slice(digits, &mut bytes).ok()?;
    Some(bytes[0])
}

// The bytes of a text, at the front of a list that has places for them.
pub fn read<'a>(text: &[u8], list: &'a mut [u8]) -> Option<&'a [u8]> {
    let bytes = list.get_mut(..text.len() / 2)?;
    hex::decode_to_slice(text, bytes).ok()?;
    Some(bytes)
}

// The float of a text: its bits, or `nan`.
pub fn float(text: &[u8]) -> Option<f64> {
    if let b"nan" = text {
        return Some(f64::NAN);
    }
    let mut bytes = [0u8; 8];
    hex::decode_to_slice(text, &mut bytes).ok()?;
    Some(of_bits(u64::from_be_bytes(bytes)))
}

// The float of these bits; a NaN has none in the language.
fn of_bits(bits: u64) -> f64 {
    if bits % SIGN <= INFINITY {
        f64::from_bits(bits)
    } else {
        f64::NAN
    }
}
