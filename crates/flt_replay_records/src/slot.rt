//! The value of a variable in four bytes: a number or NULL.

ghost use Rattle.std.specs.Prelude.{◌≡◌, None, OnOk, OnErr, IfOk};
ghost use Rattle.flt_replay_records.specs.Variables.{named_by};

use std::alloc::AllocError;
use std::marker::Model;

/// A number that is below 2^32 - 1, or NULL.
#[derive(Drop)]
pub(crate) struct Slot {
    /// 0 is NULL, and each other code is the number before it.
    code: u32,
}

impl Model for Slot {
    ghost use Rattle.std.specs.Prelude.{ℕ, Option};

    ghost Value = { Option ℕ };

    ghost use Rattle.flt_replay_records.specs.Variables.{named_by};

    ghost view = { λ s. named_by s.code };
}

/// The code of a value. A number without a code is too great for four bytes.
fn code_of(number: Option<usize>) -> Result<u32, AllocError>
    ensures { IfOk result (λ code. named_by code ≡ number) }
{
    match number {
        None => Ok(0),
        Some(number) if number < 4_294_967_295 => Ok(number as u32 + 1),
        Some(_) => Err(AllocError),
    }
}

impl Slot {
    /// NULL.
    pub(crate) fn null() -> Slot
        ensures { result ≡ None }
    {
        Slot { code: 0 }
    }

    /// A number, or NULL.
    pub(crate) fn naming(number: Option<usize>) -> Result<Slot, AllocError>
        ensures { IfOk result (λ slot. slot ≡ number) }
    {
        Ok(Slot {
            code: code_of(number)?,
        })
    }

    /// A copy.
    pub(crate) fn copied(&self) -> Slot
        ensures { result ≡ self.now }
    {
        Slot { code: self.code }
    }

    /// The value.
    pub(crate) fn get(&self) -> Option<usize>
        ensures { result ≡ self.now }
    {
        match self.code {
            0 => None,
            code => Some((code - 1) as usize),
        }
    }

    /// Sets the value.
    pub(crate) fn set(&mut self, number: Option<usize>) -> Result<(), AllocError>
        ensures ok { OnOk result (self.new ≡ number) }
        ensures err { OnErr result (self.new ≡ self.old) }
    {
        self.code = code_of(number)?;
        Ok(())
    }
}
