//! The text of certificates.

ghost use Rattle.std.specs.Prelude.{◌≡◌, ◌<◌, ◌≤◌, ◌+◌, [], ◌∷◌, ◌++◌, length, IfOk, OnOk};
ghost use Rattle.std.specs.Vec.{vec_len, vec_capacity};
ghost use Rattle.flt_cert.specs.Format as format;
ghost use Rattle.flt_cert.specs.Spelling.{spelling};
ghost use Rattle.flt_cert.specs.Text.{decimal};
ghost use Rattle.flt_cert.specs.ThinFormat as thin_format;

use crate::cert::Cert;
use crate::full_cert::FullCert;
use crate::thin_cert::{Slot, ThinCert};
use flt_abs::{Abs, Statuses};
use flt_rules::{Access, HeldLock};
use std::alloc::{AllocError, Global};

/// The greatest length of the line of a point at which no lock is held. At most points none is.
const POINT_LINE: usize = 26;

const LAST_LINE: &[u8] = b"end\n";

/// Adds a number, for whose digits there is room.
#[inline(always)]
fn put_number(out: &mut Vec<u8>, number: usize)
    requires small { number < 1000 }
    requires room { vec_len out.old + 3 ≤ vec_capacity out.old }
    ensures items { out.new.items ≡ out.old.items ++ decimal number }
    ensures len { vec_len out.new ≤ vec_len out.old + 3 }
    ensures capacity { vec_capacity out.new ≡ vec_capacity out.old }
{
    // Its digits are computed in few instructions as those of a small number.
    let number = number as u16;
    let low = b'0' + (number % 10) as u8;
    if number < 10 {
        out.push_reserved(low);
        return;
    }
    let middle = b'0' + (number / 10 % 10) as u8;
    if number < 100 {
        out.push_reserved(middle);
        out.push_reserved(low);
        return;
    }
    out.push_reserved(b'0' + (number / 100) as u8);
    out.push_reserved(middle);
    out.push_reserved(low);
}

#[inline(always)]
fn push_number(out: &mut Vec<u8>, number: usize) -> Result<(), AllocError>
    requires { number < 1000 }
    ensures { OnOk result (out.new.items ≡ out.old.items ++ decimal number) }
{
    out.reserve(3)?;
    put_number(out, number);
    Ok(())
}

/// Adds a field of digits and a blank, for which there is room.
#[inline(always)]
fn put_field(out: &mut Vec<u8>, sets: &[Statuses])
    requires { vec_len out.old + length sets.now < vec_capacity out.old }
    ensures items { out.new.items ≡ out.old.items ++ (format.digits sets.now ++ 32 ∷ []) }
    ensures len { vec_len out.new ≡ vec_len out.old + length sets.now + 1 }
    ensures capacity { vec_capacity out.new ≡ vec_capacity out.old }
{
    for set in sets {
        out.push_reserved(b'0' + set.digit());
    }
    out.push_reserved(b' ');
}

/// Adds a digit and a blank, for which there is room.
#[inline(always)]
fn put_digit(out: &mut Vec<u8>, digit: u8)
    requires below { digit < 10 }
    requires room { vec_len out.old + 1 < vec_capacity out.old }
    ensures items { out.new.items ≡ out.old.items ++ (48 + digit) ∷ 32 ∷ [] }
    ensures len { vec_len out.new ≡ vec_len out.old + 2 }
    ensures capacity { vec_capacity out.new ≡ vec_capacity out.old }
{
    out.push_reserved(b'0' + digit);
    out.push_reserved(b' ');
}

#[inline(always)]
#[tactic(auto, using(flt_abs::specs::LockLaws::place_low))]
fn push_lock(out: &mut Vec<u8>, held: HeldLock) -> Result<(), AllocError>
    ensures { OnOk result (out.new.items ≡ out.old.items ++ format.lock_text held) }
{
    out.push(b'0' + held.lock.place())?;
    match held.access {
        Access::Exclusive => Ok(()),
        Access::Shared => {
            out.push(b's')?;
            Ok(())
        }
    }
}

/// Adds the last field of a state, for whose first byte there is room.
fn push_locks(out: &mut Vec<u8>, locks: &[HeldLock]) -> Result<(), AllocError>
    requires { vec_len out.old < vec_capacity out.old }
    ensures { OnOk result (out.new.items ≡ out.old.items ++ format.locks_text locks.now) }
{
    let [oldest, others @ ..] = locks else {
        out.push_reserved(b'-');
        return Ok(());
    };
    push_lock(out, *oldest)?;
    push_more_locks(out, others)
}

fn push_more_locks(out: &mut Vec<u8>, locks: &[HeldLock]) -> Result<(), AllocError>
    ensures { OnOk result (out.new.items ≡ out.old.items ++ format.more_locks locks.now) }
{
    if let [held, others @ ..] = locks {
        out.push(b',')?;
        push_lock(out, *held)?;
        push_more_locks(out, others)?;
    }
    Ok(())
}

/// Adds the fields of a state. There is room for all of them if it holds no lock.
fn push_state(out: &mut Vec<u8>, state: &Abs) -> Result<(), AllocError>
    requires { vec_len out.old + 21 ≤ vec_capacity out.old }
    ensures { OnOk result (out.new.items ≡ out.old.items ++ format.state_text state.now) }
{
    put_field(out, state.contexts());
    put_field(out, state.operations());
    put_digit(out, state.modes().digit());
    put_digit(out, state.draining().digit());
    push_locks(out, state.locks().as_slice())?;
    Ok(())
}

fn push_point(out: &mut Vec<u8>, number: usize, point: &Option<Abs>) -> Result<(), AllocError>
    requires { number < 1000 }
    ensures { OnOk result (out.new.items ≡ out.old.items ++ format.point_line number point.now) }
{
    out.reserve(POINT_LINE)?;
    put_number(out, number);
    out.push_reserved(b' ');
    match point {
        None => out.push(b'!')?,
        Some(state) => push_state(out, state)?,
    }
    out.push(b'\n')?;
    Ok(())
}

fn push_callback(out: &mut Vec<u8>, number: usize, points: &[Option<Abs>]) -> Result<(), AllocError>
    requires small { number < 1000 }
    requires few { length points.now < 1000 }
    ensures { OnOk result (out.new.items ≡ out.old.items ++ format.joined (format.one_callback number points.now)) }
{
    out.extend_from_slice(b"callback ")?;
    push_number(out, number)?;
    out.push(b' ')?;
    push_number(out, points.len())?;
    out.push(b'\n')?;
    for (at, point) in points.iter().enumerate() {
        push_point(out, at, point)?;
    }
    Ok(())
}

/// The one spelling of a full certificate, in format 1.
pub fn write_full(alloc: Global, full: &FullCert) -> Result<Vec<u8>, AllocError>
    ensures { IfOk result (λ text. text.items ≡ format.full_spelling full.now) }
{
    let mut out = Vec::new(alloc);
    out.extend_from_slice(b"fltcert 1\n")?;
    for (at, points) in full.callbacks().iter().enumerate() {
        push_callback(&mut out, at, points.as_slice())?;
    }
    out.extend_from_slice(LAST_LINE)?;
    Ok(out)
}

/// Adds the line of a point, if it is given.
fn push_slot(out: &mut Vec<u8>, number: usize, slot: &Slot) -> Result<(), AllocError>
    requires { number < 1000 }
    ensures { OnOk result (out.new.items ≡ out.old.items ++ format.joined (thin_format.slot_lines number (slot.now ∷ []))) }
{
    if let Some(point) = slot {
        push_point(out, number, point)?;
    }
    Ok(())
}

fn push_slots(out: &mut Vec<u8>, number: usize, slots: &[Slot]) -> Result<(), AllocError>
    requires small { number < 1000 }
    requires few { length slots.now < 1000 }
    ensures { OnOk result (out.new.items ≡ out.old.items ++ format.joined (thin_format.one_thin_callback number slots.now)) }
{
    out.extend_from_slice(b"callback ")?;
    push_number(out, number)?;
    out.push(b' ')?;
    push_number(out, slots.len())?;
    out.push(b'\n')?;
    for (at, slot) in slots.iter().enumerate() {
        push_slot(out, at, slot)?;
    }
    Ok(())
}

/// The one spelling of a thin certificate, in format 2.
fn write_thin(alloc: Global, thin: &ThinCert) -> Result<Vec<u8>, AllocError>
    ensures { IfOk result (λ text. text.items ≡ thin_format.thin_spelling thin.now) }
{
    let mut out = Vec::new(alloc);
    out.extend_from_slice(b"fltcert 2\n")?;
    for (at, slots) in thin.callbacks().iter().enumerate() {
        push_slots(&mut out, at, slots.as_slice())?;
    }
    out.extend_from_slice(LAST_LINE)?;
    Ok(out)
}

/// The one spelling of a certificate, in its format.
pub fn write(alloc: Global, cert: &Cert) -> Result<Vec<u8>, AllocError>
    ensures { IfOk result (λ text. text.items ≡ spelling cert.now) }
{
    match cert {
        Cert::Full(full) => write_full(alloc, full),
        Cert::Thin(thin) => write_thin(alloc, thin),
    }
}
