//! The answer of `replay` to the names that it is given.

ghost use Rattle.std.specs.Prelude.{◌≡◌, ◌∷◌, List, ℕ, None, IfOk, IfErr, map};
ghost use Rattle.flt_model.specs.JournalText.{IsJournal, spelling};
ghost use Rattle.flt_syntax.specs.Texts.{AreSpelled};
ghost use Rattle.flt_replay.specs.Judging.{filters_of};
ghost use Rattle.flt_commands_runs.specs.Replay.{IsKeptAs};
ghost use Rattle.flt_files.specs.Inputs.{Says};
ghost use Rattle.flt_files.specs.Names.{names_of};
ghost use Rattle.flt_commands_runs.specs.Replay as spec;
ghost use Rattle.flt_words.specs.Request.{Replay};

use crate::answer::RunAnswer;
use flt_files::{Contents, Failure, Inputs, PieceReader, Pieces, read_with_journal};
use flt_model::{Journal, JournalFault, Verdict, first_repeated, read};
use flt_replay::replay;
use flt_rules::MAX_FILTERS;
use flt_syntax::{Tree, parse_all};
use std::alloc::Global;

// ---- the journal

/// The journal that some bytes spell. Each piece of them is freed once it is read through.
fn read_journal<'a>(alloc: Global, written: Pieces) -> Result<Journal, Failure<'a>>
    ensures ok { IfOk result (λ entries. IsJournal entries × (written ≡ spelling entries)) }
    ensures err { IfErr result (spec.JournalFails written) }
{
    match read(alloc, &mut PieceReader::new(alloc, written)) {
        Ok(journal) => Ok(journal),
        Err(JournalFault::Line(line)) => Err(Failure::JournalLine(line)),
        Err(JournalFault::Read | JournalFault::OutOfMemory) => Err(Failure::OutOfMemory),
    }
}

// ---- both

/// A journal on some filters, and the verdict about it.
#[derive(Drop)]
pub(crate) struct JudgedJournal {
    pub(crate) trees: Vec<Tree>,
    pub(crate) journal: Journal,
    pub(crate) verdict: Verdict,
}

/// The verdict about a journal on some texts, with the trees and the journal that they spell.
pub(crate) fn replay_all<'a>(
    alloc: Global,
    written: Pieces,
    texts: &[Vec<u8>],
) -> Result<JudgedJournal, Failure<'a>>
    ensures ok { IfOk result (λ r. spec.IsVerdict written (map (λ text. text.items) texts.now) r.verdict) }
    ensures filters { IfOk result (λ r. AreSpelled (map (λ text. text.items) texts.now) (filters_of r.trees.items)) }
    ensures spelled { IfOk result (λ r. written ≡ spelling r.journal) }
    ensures err { IfErr result (spec.IsFailure written (map (λ text. text.items) texts.now)) }
{
    if MAX_FILTERS < texts.len() {
        return Err(Failure::TooManyFiles);
    }
    let trees = parse_all(alloc, texts)?;
    let journal = read_journal(alloc, written)?;
    match first_repeated(trees.as_slice()) {
        Some(number) => Err(Failure::Altitude(number)),
        None => {
            let verdict = replay(alloc, trees.as_slice(), &journal)?;
            Ok(JudgedJournal {
                trees,
                journal,
                verdict,
            })
        }
    }
}

/// The verdict about a journal on some texts. The journal's entries are kept.
fn replay_texts<'a>(
    alloc: Global,
    written: Pieces,
    texts: &[Vec<u8>],
    journal: &mut Option<Journal>,
) -> Result<RunAnswer, Failure<'a>>
    ensures said { spec.Judges written (map (λ text. text.items) texts.now) result }
    ensures kept { journal.old ≡ None → IsKeptAs journal.new written result }
{
    let JudgedJournal {
        trees: _,
        journal: entries,
        verdict,
    } = replay_all(alloc, written, texts)?;
    *journal = Some(entries);
    Ok(RunAnswer::Judged(verdict))
}

/// The answer of `replay` to the names that it is given; `contents` becomes the texts and the journal that these give.
pub fn replay_files<'a, I: Inputs>(
    alloc: Global,
    inputs: &I,
    journal: &'a str,
    files: &[&'a str],
    contents: &mut Contents,
) -> Result<RunAnswer, Failure<'a>>
    ensures { (bytes : List ℕ) ×
        Says (I.gives inputs.now) (names_of (Replay journal.entry.now (map (λ name. name.now) files.now))) spec.IsReplayed
        (bytes ∷ map (λ text. text.items) contents.new.texts.items) result × IsKeptAs contents.new.journal bytes result }
{
    contents.journal = None;
    let (written, texts) = read_with_journal(alloc, inputs, journal, files)?;
    contents.texts = texts;
    replay_texts(
        alloc,
        written,
        contents.texts.as_slice(),
        &mut contents.journal,
    )
}
