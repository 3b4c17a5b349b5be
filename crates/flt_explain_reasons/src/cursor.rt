//! A place in a line.

/// The unread rest of a line.
#[derive(Clone, Copy)]
pub(crate) struct Cursor<'a> {
    pub(crate) left: &'a [u8],
}

impl<'a> Cursor<'a> {
    /// Passes a byte, if it is the next one.
    pub(crate) fn byte(&mut self, byte: u8) -> bool {
        match self.left {
            [first, others @ ..] if *first == byte => {
                self.left = others;
                true
            }
            _ => false,
        }
    }

    /// Passes a digit from 1 up to another one, if one is next.
    pub(crate) fn digit(&mut self, greatest: u8) -> bool {
        match self.left {
            [first, others @ ..] if b'1' <= *first && *first <= greatest => {
                self.left = others;
                true
            }
            _ => false,
        }
    }

    /// The bytes up to the next blank.
    pub(crate) fn word(&self) -> &'a [u8] {
        let end = self
            .left
            .iter()
            .position(|byte| *byte == b' ')
            .unwrap_or(self.left.len());
        &self.left[..end.min(self.left.len())]
    }

    /// Passes the bytes up to the next blank.
    pub(crate) fn pass_word(&mut self) {
        let length = self.word().len();
        self.left = &self.left[length.min(self.left.len())..];
    }
}

/// The last number in a line, 0 if it has none.
pub(crate) fn last_number(line: &[u8]) -> u64 {
    let mut number: u64 = 0;
    for byte in line {
        number = if byte.is_ascii_digit() {
            number
                .saturating_mul(10)
                .saturating_add(u64::from(byte.saturating_sub(b'0')))
        } else {
            0
        };
    }
    number
}

/// Digits without leading zeros.
pub(crate) fn is_decimal(word: &[u8]) -> bool {
    match word {
        [] => false,
        [b'0', _, ..] => false,
        _ => word.iter().all(|byte| byte.is_ascii_digit()),
    }
}
