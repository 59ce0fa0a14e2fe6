//! The cases of a folder.

use crate::fault::CaseFault;
use crate::sheet::check_case;
use std::fs;
use std::rt::Runtime;

/// Checks each case of the present folder. Tells the number of cases and of their runs, what each wrong case was
/// found to be, and on standard error what isn't as it should be. Gives whether all is.
pub fn check_folder(rt: &(impl Runtime + AllocGlobal)) -> Result<bool, CaseFault> {
    let cases = names(rt, ".case")?;
    if cases.is_empty() {
        return Err(CaseFault::NoCase);
    }
    let mut runs = 0u64;
    let mut good = true;
    for name in &cases {
        match meets(rt, name.as_str())? {
            Some(more) => runs = runs.saturating_add(more),
            None => good = false,
        }
    }
    let wrong = names(rt, ".wrong")?;
    good = all_fail(rt, &wrong)? && good;
    let count = cases.len();
    println!(rt; "{count} files, {runs} runs")?;
    Ok(good)
}

/// The files of the present folder whose names end so, in their order.
fn names(rt: &(impl Runtime + AllocGlobal), ending: &str) -> Result<Vec<String>, CaseFault> {
    let mut names = Vec::new(rt.alloc());
    for entry in fs::read_dir(rt, ".")? {
        let entry = entry?;
        let name = entry.file_name();
        if name.ends_with(ending) {
            names.push(String::from_str(rt.alloc(), name)?)?;
        }
    }
    names.sort()?;
    Ok(names)
}

/// Runs a case, and tells on standard error what it isn't. Gives the number of its runs where it is met.
fn meets(rt: &(impl Runtime + AllocGlobal), name: &str) -> Result<Option<u64>, CaseFault> {
    let text = fs::read_to_string(rt, name)?;
    match check_case(rt.alloc(), text.as_str()) {
        Ok(runs) => Ok(Some(runs)),
        Err(CaseFault::Found { line, what }) => {
            eprintln!(rt; "{name}:{line}: {what}")?;
            Ok(None)
        }
        Err(fault) => Err(fault),
    }
}

/// Whether each of these cases fails. Tells at which line each does, and why.
fn all_fail(rt: &(impl Runtime + AllocGlobal), names: &[String]) -> Result<bool, CaseFault> {
    let mut good = true;
    for name in names {
        let text = fs::read_to_string(rt, name.as_str())?;
        match check_case(rt.alloc(), text.as_str()) {
            Ok(_) => {
                eprintln!(rt; "{name}: wanted something wrong, got nothing")?;
                good = false;
            }
            Err(CaseFault::Found { line, what }) => println!(rt; "{name}:{line}: {what}")?,
            Err(fault) => return Err(fault),
        }
    }
    Ok(good)
}
