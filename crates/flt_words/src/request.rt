//! The request that the words of a command line make.

ghost use Rattle.std.specs.Prelude.{◌≡◌, map};
ghost use Rattle.flt_words.specs.Request as spec;

use crate::workers::Workers;

/// The form of a report of findings.
#[derive(Clone, Copy, Debug)]
pub enum Form {
    /// A page in HTML.
    Html,
    /// For people.
    Human,
    /// A JSON object a line.
    Lines,
    /// SARIF 2.1.0.
    Sarif,
    /// One line a finding, in the form of compilers.
    Short,
    /// A JSON object a line, with the runs of findings.
    LinesWithRuns,
    /// SARIF 2.1.0, with the runs of findings.
    SarifWithRuns,
}

/// When reports for people have the colours of a terminal.
#[derive(Clone, Copy, Debug)]
pub enum Colour {
    /// Where the standard output is a terminal that shows them.
    Auto,
    Always,
    Never,
}

/// The settings of `explain` for runs.
#[derive(Clone, Copy, Debug)]
pub struct SearchChoice {
    /// The number of states that the search for runs of a text expands at most.
    pub states: u32,
    /// Whether the texts are those of one stack: then runs of all of them are looked for first, else runs of each alone.
    pub is_stack: bool,
}

/// The settings of `explain` for warnings.
#[derive(Debug, Drop)]
pub struct WarningChoice<'a> {
    /// Whether a warning that is shown counts as a finding does for the exit status.
    pub is_strict: bool,
    /// The kinds that are left out, by name: each is one of `W00` to `W07`, or of `C00` to `C05`.
    pub allowed: Vec<&'a str>,
}

/// Where the layouts of texts are written.
#[derive(Clone, Copy, Debug)]
pub enum FormatMode {
    /// To the standard output.
    Print,
    /// Nowhere: the files that differ from their layouts are listed.
    Check,
    /// Into the files.
    Write,
}

/// A part of a driver that `emit` prints.
#[derive(Clone, Copy, Debug)]
pub enum Part {
    /// The C source.
    Source,
    /// The header in which the user writes.
    User,
    /// The file for the installation.
    Inf,
}

/// A request, with its arguments.
#[derive(Debug, Drop)]
pub enum Request<'a> {
    /// Check the text of a file, with the certificate of another one or of the same.
    Check {
        file: &'a str,
        cert: Option<&'a str>,
    },
    /// Find the least certificate of the text of a file.
    Analyse {
        file: &'a str,
    },
    /// Thin the certificate of the text of a file, which is in another one or in the same.
    Thin {
        file: &'a str,
        cert: Option<&'a str>,
    },
    /// Drive the filters of some files by a script.
    Run {
        /// How many workers drive them.
        workers: Workers,
        /// Whether a terminal shows no progress of the run.
        quiet: bool,
        script: &'a str,
        files: Vec<&'a str>,
    },
    /// Replay a journal on the texts of some files, and report the outcome.
    Replay {
        journal: &'a str,
        files: Vec<&'a str>,
    },
    /// The same, and show the journal, as rows or as a picture.
    Show {
        timeline: bool,
        /// The file into which it is drawn.
        picture: Option<&'a str>,
        journal: &'a str,
        files: Vec<&'a str>,
    },
    /// Report all faults and violations of the texts of some files, and what they lead to in runs.
    Explain {
        form: Form,
        colour: Colour,
        search: SearchChoice,
        /// The file into which the journal of the first finding that has one is written.
        journal: Option<&'a str>,
        warnings: WarningChoice<'a>,
        /// Whether each file is taken for C, whatever its name ends with.
        is_c: bool,
        files: Vec<&'a str>,
    },
    /// Print the text of the annotations of some C files.
    Extract {
        /// Whether the place of each line of it is printed in its place.
        map: bool,
        files: Vec<&'a str>,
    },
    /// Lay out the texts of some files.
    Format {
        mode: FormatMode,
        /// One file, if the layout is printed.
        files: Vec<&'a str>,
    },
    /// Print the pages of some names: of rules, violations, faults of a text, calls or statuses.
    Pages {
        names: Vec<&'a str>,
    },
    /// Serve an editor over the standard streams.
    Serve,
    /// The words are malformed, or request help or the version: the text to print for them.
    Usage(String),
    /// Emit a part of the driver that the text of a file is, with the certificate of another one or after an analysis.
    Emit {
        part: Part,
        file: &'a str,
        cert: Option<&'a str>,
    },
    /// Write all parts of the driver into a folder.
    EmitInto {
        /// It isn't empty.
        folder: &'a str,
        /// Whether a source that is there is replaced, whoever wrote it.
        is_forced: bool,
        file: &'a str,
        cert: Option<&'a str>,
    },
    /// Compare the code of some C files with their annotations.
    Compare {
        files: Vec<&'a str>,
    },
    /// List the functions and tables of some C files.
    Functions {
        /// The macros that are defined before each file: NAME, or NAME=VALUE in one line.
        defined: Vec<&'a str>,
        /// The names that are no macros there.
        undefined: Vec<&'a str>,
        /// The folders in which headers are looked for, in this order.
        folders: Vec<&'a str>,
        files: Vec<&'a str>,
    },
}

impl<'a> Request<'a> {
    /// The files of which `explain` reports; none for every other request.
    pub fn explained_files(&self) -> &[&'a str]
        ensures { map (λ name. name.now) result.now ≡ spec.explained_files (spec.asked_of self.now) }
    {
        match self {
            Request::Explain { files, .. } => files.as_slice(),
            _ => &[],
        }
    }

    /// The same request, with these files if it is a request of `explain` for files.
    pub fn with_files(self, files: Vec<&'a str>) -> Request<'a>
        ensures { spec.asked_of result ≡ spec.with_files (map (λ name. name.now) files.entry.items) (spec.asked_of self.entry) }
    {
        match self {
            Request::Explain {
                form,
                colour,
                search,
                journal,
                warnings,
                is_c,
                ..
            } => Request::Explain {
                form,
                colour,
                search,
                journal,
                warnings,
                is_c,
                files,
            },
            other => other,
        }
    }
}
