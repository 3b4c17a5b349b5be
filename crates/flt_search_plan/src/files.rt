//! The files that are tried.

use crate::plan::FilterPlan;
use flt_graph::{Graph, Instruction, Test};
use flt_tree::Atom;
use std::alloc::{AllocError, Global};

/// How many files are tried at most.
const MAX_FILES: usize = 64;

fn add_file(files: &mut Vec<u32>, number: u64) -> Result<(), AllocError> {
    if files.len() >= MAX_FILES || number >= 1024 {
        return Ok(());
    }
    let Ok(file) = u32::try_from(number) else {
        return Ok(());
    };
    for other in files.as_slice() {
        if *other == file {
            return Ok(());
        }
    }
    Ok(files.push(file)?)
}

fn add_tested(files: &mut Vec<u32>, test: Test) -> Result<(), AllocError> {
    match test {
        Test::Equal(_, Atom::Number(number)) => add_file(files, number),
        Test::Less(_, Atom::Number(number)) => {
            add_file(files, number.saturating_sub(1))?;
            add_file(files, number)
        }
        _ => Ok(()),
    }
}

fn add_files_of(files: &mut Vec<u32>, graph: &Graph) -> Result<(), AllocError> {
    for callback in graph.callbacks.as_slice() {
        for point in callback.points.as_slice() {
            if let Instruction::Test(test, _, _) = point.instruction {
                add_tested(files, test)?;
            }
        }
    }
    Ok(())
}

pub(crate) fn files_of(alloc: Global, filters: &[FilterPlan]) -> Result<Vec<u32>, AllocError> {
    let mut files = Vec::new(alloc);
    files.push(0)?;
    for filter in filters {
        if filter.sees_files {
            add_file(&mut files, 1)?;
            add_files_of(&mut files, &filter.graph)?;
        }
    }
    Ok(files)
}
