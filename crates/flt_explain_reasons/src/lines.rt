//! The lines of an input.

/// A line, without the bytes that end it.
#[derive(Clone, Copy)]
pub(crate) struct Line<'a> {
    pub(crate) bytes: &'a [u8],
    /// A line feed ends it.
    pub(crate) is_ended: bool,
    /// A carriage return is before that.
    pub(crate) has_return: bool,
}

/// The line of these bytes, after which a line feed is.
fn ended(bytes: &[u8]) -> Line<'_> {
    match bytes.strip_suffix(b"\r") {
        Some(front) => Line {
            bytes: front,
            is_ended: true,
            has_return: true,
        },
        None => Line {
            bytes,
            is_ended: true,
            has_return: false,
        },
    }
}

/// The unread rest of an input.
#[derive(Drop)]
pub(crate) struct Lines<'a> {
    pub(crate) left: &'a [u8],
}

impl<'a> Lines<'a> {
    /// The next line; none at the end of the input.
    pub(crate) fn next(&mut self) -> Option<Line<'a>> {
        if self.left.is_empty() {
            return None;
        }
        let end = self
            .left
            .iter()
            .position(|byte| *byte == b'\n')
            .unwrap_or(self.left.len());
        let (bytes, others) = self.left.split_at(end.min(self.left.len()));
        match others {
            [_, behind @ ..] => {
                self.left = behind;
                Some(ended(bytes))
            }
            [] => {
                self.left = others;
                Some(Line {
                    bytes,
                    is_ended: false,
                    has_return: false,
                })
            }
        }
    }
}
