//! The answer of `run` to the names that it is given.

ghost use Rattle.std.specs.Prelude.{◌≡◌, ◌∷◌, List, length, map};
ghost use Rattle.flt_files.specs.Inputs.{Says, Text};
ghost use Rattle.flt_commands_runs.specs.Running as spec;
ghost use Rattle.flt_stack_crew.specs.Running.{Answers};

use crate::answer::RunAnswer;
use flt_files::{Contents, Failure, Inputs, read_all};
use flt_stack_crew::{Ran, RunFault, Watch, run};
use flt_words::Workers;
use std::alloc::Global;
use std::sync::Wait;
use std::thread::Threads;

/// The answer on the outcome of a script on so many texts.
fn answer_of<'a>(ran: Result<Ran, RunFault>, texts: usize) -> Result<RunAnswer, Failure<'a>>
    ensures { (script : Text) (all : List Text) → texts ≡ length all → Answers script all ran → spec.Judges script all result }
{
    match ran {
        Ok(ran) => Ok(RunAnswer::Ran(ran)),
        Err(RunFault::Refused { file, refusal }) => Ok(RunAnswer::FileRefused(file, refusal)),
        Err(RunFault::Count) if texts == 0 => Err(Failure::NoFile),
        Err(RunFault::Count) => Err(Failure::TooManyFiles),
        Err(RunFault::Syntax { file, fault }) => Err(Failure::FileSyntax(file, fault)),
        Err(RunFault::Script { line }) => Err(Failure::ScriptLine(line)),
        Err(RunFault::Altitude { file }) => Err(Failure::Altitude(file)),
        Err(RunFault::OutOfMemory) => Err(Failure::OutOfMemory),
    }
}

/// The answer of `run` to the names that it is given, with these workers; `contents` becomes the bytes that the names give. `watch` hears
/// of each line of the script that was given.
pub fn run_files<'a, R: Threads + Wait + Sync, I: Inputs, W: Watch>(
    rt: &R,
    alloc: Global,
    workers: Workers,
    inputs: &I,
    script: &'a str,
    files: &[&'a str],
    watch: &mut W,
    contents: &mut Contents,
) -> Result<RunAnswer, Failure<'a>>
    ensures { Says (I.gives inputs.now) (script.entry.now ∷ map (λ name. name.now) files.now) spec.IsRan
        (map (λ text. text.items) contents.new.texts.items) result }
{
    let mut names = Vec::new(alloc);
    names.push(script)?;
    names.extend_from_slice(files)?;
    contents.texts = read_all(alloc, inputs, names.as_slice())?;
    let script = contents.texts[0].as_slice();
    let texts = &contents.texts[1..];
    let ran = run(rt, alloc, workers.count(), script, texts, watch);
    answer_of(ran, texts.len())
}
