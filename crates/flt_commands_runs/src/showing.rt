//! The answer of `replay` to the names that it is given, if the journal is shown.

ghost use Rattle.std.specs.Prelude.{◌≡◌, [], ◌∷◌, ℕ, List, None, false, IfOk, OnErr, OnOk, map, option_map};
ghost use Rattle.flt_commands_runs.specs.Replay.{IsKeptAs};
ghost use Rattle.flt_commands_runs.specs.Drawn.{IsDrawnFor, IsDrawnIn, IsDrawnOf};
ghost use Rattle.flt_files.specs.Attempts.{Does, Failed, Grows};
ghost use Rattle.flt_files.specs.Inputs.{Says};
ghost use Rattle.flt_commands_runs.specs.Replay as spec;
ghost use Rattle.flt_door.specs.Door.{at_door};
ghost use Rattle.flt_model.specs.Program.{filters_of};

use crate::answer::RunAnswer;
use crate::replay::{JudgedJournal, replay_all};
use flt_door::let_out;
use flt_explain_picture::picture;
use flt_explain_timeline::Timeline;
use flt_files::{
    Contents, Failure, Inputs, OutputFault, Pictures, Pieces, read_with_journal, unwritten_lines,
};
use flt_model::{Journal, Verdict};
use std::alloc::{AllocError, Global};

/// The rows of a timeline, if they are requested; else nothing.
fn rows_of(alloc: Global, is_asked: bool, timeline: &Timeline<'_>) -> Result<Vec<u8>, AllocError>
    ensures { IfOk result (λ rows. is_asked ≡ false → rows.items ≡ []) }
{
    if !is_asked {
        return Ok(Vec::new(alloc));
    }
    Ok(timeline.text(alloc, 0)?.into_bytes())
}

/// Lets a picture out.
fn let_picture_out(drawn: &mut Vec<u8>)
    ensures { drawn.new.items ≡ at_door drawn.old.items }
{
    let_out(drawn.as_mut_slice());
}

/// Draws a journal on the filters of some texts into a file that is none of the inputs. Returns why that isn't written, if it isn't.
fn draw<P: Pictures>(
    alloc: Global,
    inputs: &[&str],
    name: &str,
    replayed: &JudgedJournal,
    texts: &[Vec<u8>],
    timeline: &Timeline<'_>,
    pictures: &mut P,
) -> Result<Result<(), OutputFault>, AllocError>
    ensures drawn { IfOk result (λ tried. OnOk tried (IsDrawnOf (P.written pictures.new) (Grows (P.done pictures.old) (P.done pictures.new))
        name.now (filters_of replayed.now.trees.items) replayed.now.verdict)) }
    ensures failed { IfOk result (λ tried. OnErr tried (Grows (P.done pictures.old) (P.done pictures.new) (Failed name.now ∷ []))) }
{
    let trees = replayed.trees.as_slice();
    let (journal, verdict) = (&replayed.journal, replayed.verdict);
    let mut drawn = picture(alloc, trees, texts, journal, verdict, timeline)?.into_bytes();
    let_picture_out(&mut drawn);
    pictures.write(alloc, inputs, name, drawn.as_slice())
}

/// Shows a journal on the filters of some texts, with the monitor's verdict.
fn show<'a, P: Pictures>(
    alloc: Global,
    is_asked: bool,
    inputs: &[&str],
    name: Option<&'a str>,
    replayed: &JudgedJournal,
    texts: &[Vec<u8>],
    pictures: &mut P,
) -> Result<RunAnswer, Failure<'a>>
    ensures shown { spec.IsShownOf is_asked (option_map (λ name. name.now) name.entry) replayed.now.verdict result }
    ensures drawn { IsDrawnIn (P.written pictures.new)
        (Does (pictures.new ≡ pictures.old) (P.done pictures.old) (P.done pictures.new))
        (option_map (λ name. name.now) name.entry) (filters_of replayed.now.trees.items) replayed.now.verdict result }
{
    let trees = replayed.trees.as_slice();
    let timeline = Timeline::of(alloc, trees, &[], &replayed.journal, replayed.verdict)?;
    if let Some(name) = name {
        if let Err(why) = draw(alloc, inputs, name, replayed, texts, &timeline, pictures)? {
            return Err(Failure::CannotWrite(name, why));
        }
    }
    let rows = rows_of(alloc, is_asked, &timeline)?;
    Ok(RunAnswer::Shown(rows, replayed.verdict))
}

/// The answer on a journal on some texts, which is shown. The journal's entries are kept if it can be shown.
fn show_texts<'a, P: Pictures>(
    alloc: Global,
    is_asked: bool,
    inputs: &[&str],
    name: Option<&'a str>,
    written: Pieces,
    texts: &[Vec<u8>],
    pictures: &mut P,
    journal: &mut Option<Journal>,
) -> Result<RunAnswer, Failure<'a>>
    ensures said { spec.ShownJudges is_asked (option_map (λ name. name.now) name.entry) written
        (map (λ text. text.items) texts.now) result }
    ensures drawn { IsDrawnFor (P.written pictures.new)
        (Does (pictures.new ≡ pictures.old) (P.done pictures.old) (P.done pictures.new))
        (option_map (λ name. name.now) name.entry) (map (λ text. text.items) texts.now) result }
    ensures kept { journal.old ≡ None → IsKeptAs journal.new written result }
{
    let replayed = replay_all(alloc, written, texts)?;
    let answer = show(alloc, is_asked, inputs, name, &replayed, texts, pictures)?;
    *journal = Some(replayed.journal);
    Ok(answer)
}

/// The answer of `replay` to the names that it is given, if the journal is shown; `contents` becomes the texts and the journal that these
/// give. The journal is shown as rows, if these are requested, and in a file, if one is named.
pub fn show_files<'a, I: Inputs, P: Pictures>(
    alloc: Global,
    inputs: &I,
    is_asked: bool,
    name: Option<&'a str>,
    journal: &'a str,
    files: &[&'a str],
    pictures: &mut P,
    contents: &mut Contents,
) -> Result<RunAnswer, Failure<'a>>
    ensures said { (bytes : List ℕ) × Says (I.gives inputs.now) (journal.entry.now ∷ map (λ name. name.now) files.now)
        (spec.IsShown is_asked (option_map (λ name. name.now) name.entry))
        (bytes ∷ map (λ text. text.items) contents.new.texts.items) result
        × IsKeptAs contents.new.journal bytes result }
    ensures drawn { IsDrawnFor (P.written pictures.new)
        (Does (pictures.new ≡ pictures.old) (P.done pictures.old) (P.done pictures.new))
        (option_map (λ name. name.now) name.entry) (map (λ text. text.items) contents.new.texts.items) result }
{
    contents.journal = None;
    let mut names = Vec::new(alloc);
    names.push(journal)?;
    names.extend_from_slice(files)?;
    let (written, texts) = read_with_journal(alloc, inputs, journal, files)?;
    contents.texts = texts;
    show_texts(
        alloc,
        is_asked,
        names.as_slice(),
        name,
        written,
        contents.texts.as_slice(),
        pictures,
        &mut contents.journal,
    )
}

/// Whole lines that say why a picture isn't written, if it isn't; else nothing.
pub fn show_remark(
    alloc: Global,
    said: &Result<RunAnswer, Failure<'_>>,
) -> Result<Vec<u8>, AllocError>
    ensures { IfOk result (λ lines. OnOk said.now (lines.items ≡ [])) }
{
    match said {
        Err(Failure::CannotWrite(name, why)) => unwritten_lines(alloc, name, *why),
        _ => Ok(Vec::new(alloc)),
    }
}
