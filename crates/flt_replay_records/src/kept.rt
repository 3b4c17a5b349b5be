//! The state that an activation keeps beside its innermost blocks. Most use few variables, which are in place; the others allocate memory
//! of their own, once.

ghost use Rattle.std.specs.Prelude.{◌≡◌, ◌<◌, ◌++◌, ◌∷◌, [], true, false, None, length, get_or};
ghost use Rattle.std.specs.Prelude.{set, remove, replicate, IfOk, IfSome, OnOk, MatchOption};
ghost use Rattle.flt_replay_records.specs.Kept.{contents, contents_of, few_alone, few_contexts, few_operations, IsAll};
ghost use Rattle.flt_replay_records.specs.Behind.{parts, TurnsLast};
ghost use Rattle.flt_replay_records.specs.declared.rest.Part.TheVariants.{Block, Repeat};

use crate::behind::Behind;
use crate::rest::Part;
use crate::slot::Slot;
use flt_rules::HeldLock;
use flt_tree::{Span, Statement};
use sqlite_items::Items;
use std::alloc::{AllocError, Global};

/// The variables in place. The others are NULL or 0.
#[derive(Drop)]
pub(crate) struct Few {
    c0: Slot,
    c1: Slot,
    arg: Slot,
    o0: Slot,
    data: Slot,
}

/// All that an activation may keep.
#[derive(Drop)]
struct All<'a> {
    /// The continuation after the two innermost blocks.
    after: Behind<'a>,
    numbers: [u64; 8],
    contexts: [Slot; 9],
    operations: [Slot; 5],
    locks: Items<HeldLock>,
}

/// There is room beside the tag for whether the activation ended.
#[derive(Drop)]
enum Form<'a> {
    Few(bool, Few),
    All(bool, Box<All<'a>>),
}

/// Further blocks, variables and locks, and whether the activation ended.
#[derive(Drop)]
pub(crate) struct ActivationRest<'a> {
    alloc: Global,
    form: Form<'a>,
}

impl Few {
    /// A copy.
    pub(crate) fn copied(&self) -> Few
        ensures { result ≡ self.now }
    {
        Few {
            c0: self.c0.copied(),
            c1: self.c1.copied(),
            arg: self.arg.copied(),
            o0: self.o0.copied(),
            data: self.data.copied(),
        }
    }

    pub(crate) fn context(&self, place: usize) -> Option<usize>
        requires { place < 9 }
        ensures { result ≡ get_or (few_contexts self.now) place None }
    {
        match place {
            0 => self.c0.get(),
            1 => self.c1.get(),
            8 => self.arg.get(),
            _ => None,
        }
    }

    pub(crate) fn operation(&self, place: usize) -> Option<usize>
        requires { place < 5 }
        ensures { result ≡ get_or (few_operations self.now) place None }
    {
        match place {
            0 => self.o0.get(),
            4 => self.data.get(),
            _ => None,
        }
    }

    /// Sets a context variable. False if it isn't in place, and would not be NULL.
    fn put_context(&mut self, place: usize, context: Option<usize>) -> Result<bool, AllocError>
        requires { place < 9 }
        ensures put { IfOk result (λ put. put ≡ true → few_contexts self.new ≡ set (few_contexts self.old) place context) }
        ensures same { IfOk result (λ put. put ≡ false → self.new ≡ self.old) }
        ensures others { few_operations self.new ≡ few_operations self.old }
    {
        match place {
            0 => self.c0.set(context)?,
            1 => self.c1.set(context)?,
            8 => self.arg.set(context)?,
            _ => return Ok(context.is_none()),
        }
        Ok(true)
    }

    /// Sets an operation variable. False if it isn't in place, and would not be NULL.
    fn put_operation(&mut self, place: usize, visit: Option<usize>) -> Result<bool, AllocError>
        requires { place < 5 }
        ensures put { IfOk result (λ put. put ≡ true → few_operations self.new ≡ set (few_operations self.old) place visit) }
        ensures same { IfOk result (λ put. put ≡ false → self.new ≡ self.old) }
        ensures others { few_contexts self.new ≡ few_contexts self.old }
    {
        match place {
            0 => self.o0.set(visit)?,
            4 => self.data.set(visit)?,
            _ => return Ok(visit.is_none()),
        }
        Ok(true)
    }

    /// All that an activation keeps, if it uses only these variables.
    fn all<'a>(&self, alloc: Global) -> All<'a>
        ensures lists { (parts result.after ≡ []) × (result.locks ≡ []) }
        ensures variables { (result.numbers ≡ replicate 8 0) ×
            ((result.contexts ≡ few_contexts self.now) × (result.operations ≡ few_operations self.now)) }
    {
        All {
            after: Behind::new(alloc),
            numbers: [0; 8],
            contexts: [
                self.c0.copied(),
                self.c1.copied(),
                Slot::null(),
                Slot::null(),
                Slot::null(),
                Slot::null(),
                Slot::null(),
                Slot::null(),
                self.arg.copied(),
            ],
            operations: [
                self.o0.copied(),
                Slot::null(),
                Slot::null(),
                Slot::null(),
                self.data.copied(),
            ],
            locks: Items::new(alloc),
        }
    }
}

/// Allocates memory, if there is none yet.
#[cold]
fn make(form: &mut Form<'_>, alloc: Global) -> Result<(), AllocError>
    ensures same { OnOk result (contents_of form.new ≡ contents_of form.old) }
    ensures made { OnOk result (IsAll form.new) }
{
    let Form::Few(ended, few) = &*form else {
        return Ok(());
    };
    let ended = *ended;
    let all = Box::new(alloc, few.all(alloc))?;
    *form = Form::All(ended, all);
    Ok(())
}

/// Ensures that there is memory for all.
#[inline(always)]
fn see_to_all(form: &mut Form<'_>, alloc: Global) -> Result<(), AllocError>
    ensures same { OnOk result (contents_of form.new ≡ contents_of form.old) }
    ensures made { OnOk result (IsAll form.new) }
{
    if let Form::Few(_, _) = &*form {
        return make(form, alloc);
    }
    Ok(())
}

impl<'a> ActivationRest<'a> {
    /// The state at entry: all is 0 or NULL except the given operation and the given context. It fails if a number is 2^32 - 1 or greater.
    pub(crate) fn starting(
        alloc: Global,
        given: Option<usize>,
        arg: Option<usize>,
    ) -> Result<ActivationRest<'a>, AllocError>
        ensures { IfOk result (λ kept. contents kept ≡ record {
          after = [];
          numbers = replicate 8 0;
          contexts = replicate 8 None ++ arg ∷ [];
          operations = replicate 4 None ++ given ∷ [];
          locks = [];
          ended = false;
        }) }
    {
        let few = Few {
            c0: Slot::null(),
            c1: Slot::null(),
            arg: Slot::naming(arg)?,
            o0: Slot::null(),
            data: Slot::naming(given)?,
        };
        Ok(ActivationRest {
            alloc,
            form: Form::Few(false, few),
        })
    }

    /// The state of an activation that ended.
    pub(crate) fn ended(alloc: Global, few: Few) -> ActivationRest<'a>
        ensures { contents result ≡ few_alone true few }
    {
        ActivationRest {
            alloc,
            form: Form::Few(true, few),
        }
    }

    /// The variables, if none but these are in use and no locks are held.
    pub(crate) fn few(&self) -> Option<Few>
        ensures { IfSome result (λ few. contents self.now ≡ few_alone (contents self.now).ended few) }
    {
        match &self.form {
            Form::Few(_, few) => Some(few.copied()),
            Form::All(_, _) => None,
        }
    }

    /// Whether the activation ended.
    #[inline(always)]
    pub(crate) fn has_ended(&self) -> bool
        ensures { result ≡ (contents self.now).ended }
    {
        match &self.form {
            Form::Few(ended, _) => *ended,
            Form::All(ended, _) => *ended,
        }
    }

    /// Ends the activation, with which nothing continues.
    #[inline(always)]
    pub(crate) fn end(&mut self)
        ensures { contents self.new ≡ record (contents self.old) { after = []; ended = true } }
    {
        if let Form::All(_, all) = &mut self.form {
            all.after = Behind::new(self.alloc);
        }
        match &mut self.form {
            Form::Few(ended, _) => *ended = true,
            Form::All(ended, _) => *ended = true,
        }
    }

    /// Takes out the part with which execution continues.
    pub(crate) fn resume(&mut self) -> Option<Part<'a>>
        ensures { MatchOption result (((contents self.old).after ≡ []) × (contents self.new ≡ contents self.old))
            (λ part. ((contents self.old).after ≡ (contents self.new).after ++ part ∷ [])
            × (contents self.new ≡ record (contents self.old) { after = (contents self.new).after })) }
    {
        match &mut self.form {
            Form::Few(_, _) => None,
            Form::All(_, all) => all.after.pop(),
        }
    }

    /// Takes a turn of the `repeat` with which execution continues, and returns its body. None, and nothing is changed, if no `repeat` is
    /// next or none of its turns is left.
    #[inline(always)]
    pub(crate) fn turn_again(&mut self) -> Option<&'a [Statement]>
        ensures turned { MatchOption result (contents self.new ≡ contents self.old)
            (λ body. TurnsLast (contents self.old).after body.now (contents self.new).after) }
        ensures others { contents self.new ≡ record (contents self.old) { after = (contents self.new).after } }
    {
        let Form::All(_, all) = &mut self.form else {
            return None;
        };
        all.after.turn()
    }

    /// Adds the rest of a block, with which execution will continue before the others.
    pub(crate) fn suspend_block(&mut self, block: &'a [Statement]) -> Result<(), AllocError>
        requires { 0 < length block.now }
        ensures { OnOk result
            (contents self.new ≡ record (contents self.old) { after = (contents self.old).after ++ Block block.entry ∷ [] }) }
    {
        see_to_all(&mut self.form, self.alloc)?;
        if let Form::All(_, all) = &mut self.form {
            all.after.push_block(block)?;
        }
        Ok(())
    }

    /// Adds a `repeat`, with which execution will continue before the others.
    pub(crate) fn suspend_repeat(
        &mut self,
        span: &'a Span,
        turns: u64,
        body: &'a [Statement],
    ) -> Result<(), AllocError>
        ensures { OnOk result (contents self.new ≡ record (contents self.old) {
          after = (contents self.old).after ++ Repeat span.entry turns body.entry ∷ [];
        }) }
    {
        see_to_all(&mut self.form, self.alloc)?;
        if let Form::All(_, all) = &mut self.form {
            all.after.push_repeat(span, turns, body)?;
        }
        Ok(())
    }

    /// The number at a place.
    #[inline(always)]
    pub(crate) fn number(&self, place: usize) -> u64
        requires { place < 8 }
        ensures { result ≡ get_or (contents self.now).numbers place 0 }
    {
        match &self.form {
            Form::Few(_, _) => 0,
            Form::All(_, all) => all.numbers[place],
        }
    }

    /// Sets the number at a place.
    #[inline(always)]
    pub(crate) fn set_number(&mut self, place: usize, value: u64) -> Result<(), AllocError>
        requires { place < 8 }
        ensures { OnOk result (contents self.new ≡ record (contents self.old) { numbers = set (contents self.old).numbers place value }) }
    {
        see_to_all(&mut self.form, self.alloc)?;
        if let Form::All(_, all) = &mut self.form {
            all.numbers[place] = value;
        }
        Ok(())
    }

    /// The number of the context that the variable at a place names.
    #[inline(always)]
    pub(crate) fn context(&self, place: usize) -> Option<usize>
        requires { place < 9 }
        ensures { result ≡ get_or (contents self.now).contexts place None }
    {
        match &self.form {
            Form::Few(_, few) => few.context(place),
            Form::All(_, all) => {
                let contexts = &all.contexts;
                contexts[place].get()
            }
        }
    }

    /// The number of the visit that the variable at a place names.
    #[inline(always)]
    pub(crate) fn operation(&self, place: usize) -> Option<usize>
        requires { place < 5 }
        ensures { result ≡ get_or (contents self.now).operations place None }
    {
        match &self.form {
            Form::Few(_, few) => few.operation(place),
            Form::All(_, all) => {
                let operations = &all.operations;
                operations[place].get()
            }
        }
    }

    /// Sets the context variable at a place. It fails if the number is 2^32 - 1 or greater, or if memory is refused.
    pub(crate) fn set_context(
        &mut self,
        place: usize,
        context: Option<usize>,
    ) -> Result<(), AllocError>
        requires { place < 9 }
        ensures { OnOk result
            (contents self.new ≡ record (contents self.old) { contexts = set (contents self.old).contexts place context }) }
    {
        if let Form::Few(_, few) = &mut self.form {
            if few.put_context(place, context)? {
                return Ok(());
            }
        }
        see_to_all(&mut self.form, self.alloc)?;
        if let Form::All(_, all) = &mut self.form {
            let contexts = &mut all.contexts;
            contexts[place].set(context)?;
        }
        Ok(())
    }

    /// Sets the operation variable at a place. It fails if the number is 2^32 - 1 or greater, or if memory is refused.
    pub(crate) fn set_operation(
        &mut self,
        place: usize,
        visit: Option<usize>,
    ) -> Result<(), AllocError>
        requires { place < 5 }
        ensures { OnOk result
            (contents self.new ≡ record (contents self.old) { operations = set (contents self.old).operations place visit }) }
    {
        if let Form::Few(_, few) = &mut self.form {
            if few.put_operation(place, visit)? {
                return Ok(());
            }
        }
        see_to_all(&mut self.form, self.alloc)?;
        if let Form::All(_, all) = &mut self.form {
            let operations = &mut all.operations;
            operations[place].set(visit)?;
        }
        Ok(())
    }

    /// The locks that are held, the oldest first.
    #[inline(always)]
    pub(crate) fn locks(&self) -> &[HeldLock]
        ensures { result.now ≡ (contents self.now).locks }
    {
        match &self.form {
            Form::Few(_, _) => &[],
            Form::All(_, all) => all.locks.as_slice(),
        }
    }

    /// Adds a lock.
    pub(crate) fn push_lock(&mut self, held: HeldLock) -> Result<(), AllocError>
        ensures { OnOk result (contents self.new ≡ record (contents self.old) { locks = (contents self.old).locks ++ held ∷ [] }) }
    {
        see_to_all(&mut self.form, self.alloc)?;
        if let Form::All(_, all) = &mut self.form {
            all.locks.push(held)?;
        }
        Ok(())
    }

    /// Takes out the lock at a place.
    pub(crate) fn remove_lock(&mut self, place: usize)
        requires { place < length (contents self.old).locks }
        ensures { contents self.new ≡ record (contents self.old) { locks = remove (contents self.old).locks place } }
    {
        if let Form::All(_, all) = &mut self.form {
            let _ = all.locks.remove(place);
        }
    }
}
