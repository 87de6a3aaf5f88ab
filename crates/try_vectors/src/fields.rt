// The fields of a line, and what a field holds: bytes, outcomes or one number. Bytes are written as pairs of
// hexadecimal digits in capitals, outcomes as one digit each, nothing at all as `-`. A wrong character counts as 0.
// What a field holds beyond the lent buffer is cut off, and so is half a byte at its end. Fields are numbered from 0
// and parted by one space each; one that the line hasn't is empty. Buffers are lent and of fixed sizes, not Vecs:
// running out of memory would be a failure that the vectors don't have.
ghost use Rattle.std.specs.Prelude.{◌≤◌, ◌<◌, length};

pub(crate) fn field(line: &[u8], number: usize) -> &[u8] {
    line.split(|byte| *byte == b' ').nth(number).unwrap_or(&[])
}

fn value(digit: u8) -> u8
    ensures { result < 16 }
{
    match digit {
        b'0'..=b'9' => digit - b'0',
        b'A'..=b'F' => digit - b'A' + 10,
        _ => 0,
    }
}

fn pair(high: u8, low: u8) -> u8 {
    value(high) * 16 + value(low)
}

// Puts the bytes of a field at the start of `out`, and gives them.
pub(crate) fn bytes<'a>(field: &[u8], out: &'a mut [u8]) -> &'a [u8]
    ensures { length result.now ≤ length out.old }
{
    let n = out.len().min(field.len() / 2);
    let (pairs, _) = field.as_chunks::<2>();
    for (byte, [high, low]) in out.iter_mut().zip(pairs) {
        *byte = pair(*high, *low);
    }
    &out[..n]
}

// Puts the outcomes of a field at the start of `out`, and gives them.
pub(crate) fn outcomes<'a>(field: &[u8], out: &'a mut [u8]) -> &'a [u8]
    ensures { length result.now ≤ length out.old }
{
    let digits = field.split(|byte| *byte == b'-').next().unwrap_or(&[]);
    let n = out.len().min(digits.len());
    for (outcome, digit) in out.iter_mut().zip(digits) {
        *outcome = value(*digit);
    }
    &out[..n]
}

// A field's first byte as a number, 0 where it has none.
pub(crate) fn number(field: &[u8]) -> u8 {
    match field {
        [high, low, ..] => pair(*high, *low),
        _ => 0,
    }
}

// Four digits as a number, 0 where there are fewer.
pub(crate) fn wide_number(field: &[u8]) -> u16 {
    match field {
        [a, b, c, d, ..] => u16::from_be_bytes([pair(*a, *b), pair(*c, *d)]),
        _ => 0,
    }
}

// All of a field's bytes as one number, eight at the most.
pub(crate) fn long_number(field: &[u8]) -> usize {
    let mut space = [0u8; 8];
    bytes(field, &mut space)
        .iter()
        .fold(0, |number, byte| number << 8 | *byte as usize)
}

// A field's number as a buffer's size.
pub(crate) fn size(field: &[u8]) -> usize
    ensures { result ≤ 64 }
{
    (number(field) as usize).min(64)
}
