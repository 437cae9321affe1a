// Decimal numbers of the input.
ghost use Rattle.std.specs.Prelude.{◌<◌, ◌≤◌, length};

// A number, and how many digits it has.
#[derive(Clone, Copy)]
pub(crate) struct Decimal {
    pub(crate) value: u32,
    pub(crate) digits: usize,
}

// The number whose digits stand at the start, 0 where there is none; for one past 32 bits the greatest of 32.
pub(crate) fn number(s: &[u8]) -> Decimal
    ensures { result.digits ≤ length s.now }
{
    let mut value: u32 = 0;
    for (digits, b) in s.iter().enumerate() {
        if !b.is_ascii_digit() {
            return Decimal { value, digits };
        }
        value = value
            .saturating_mul(10)
            .saturating_add(u32::from(*b - b'0'));
    }
    Decimal {
        value,
        digits: s.len(),
    }
}
