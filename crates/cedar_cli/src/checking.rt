// The word `check`.

use crate::FINE;
use crate::arguments::Arguments;
use crate::files::{INPUT, read_bytes, unmarked};
use crate::output::{Stop, print};
use cedar_authoring::{Checker, check_text};
use cedar_session::{ExtensionFunctionObject, Extensions};

/// Checks texts of policies: as those that one session loads in turn, or each by itself. Gives the greatest status.
pub(crate) fn check<F: ExtensionFunctionObject>(
    rt: &HostRuntime,
    extensions: &Extensions<'_, F>,
    arguments: &Arguments<'_>,
) -> Result<u8, Stop> {
    let files = arguments.operands.as_slice();
    if files.is_empty() {
        return check_alone(rt, extensions, INPUT);
    }
    if arguments.options.each {
        return check_each(rt, extensions, files);
    }
    check_together(rt, extensions, files)
}

fn check_each<F: ExtensionFunctionObject>(
    rt: &HostRuntime,
    extensions: &Extensions<'_, F>,
    files: &[&str],
) -> Result<u8, Stop> {
    let mut status = FINE;
    for file in files {
        status = status.max(check_alone(rt, extensions, *file)?);
    }
    Ok(status)
}

fn check_alone<F: ExtensionFunctionObject>(
    rt: &HostRuntime,
    extensions: &Extensions<'_, F>,
    file: &str,
) -> Result<u8, Stop> {
    let bytes = match read_bytes(rt, file) {
        Ok(bytes) => bytes,
        Err(stop) => return Ok(stop.status()),
    };
    let report = check_text(rt.alloc(), extensions, file, unmarked(bytes.as_slice()))?;
    print(rt, report.text.as_str())?;
    Ok(report.status)
}

fn check_together<F: ExtensionFunctionObject>(
    rt: &HostRuntime,
    extensions: &Extensions<'_, F>,
    files: &[&str],
) -> Result<u8, Stop> {
    let mut checker = Checker::new(rt.alloc(), extensions)?;
    let mut status = FINE;
    for file in files {
        status = status.max(check_next(rt, &mut checker, *file)?);
    }
    Ok(status)
}

fn check_next<F: ExtensionFunctionObject>(
    rt: &HostRuntime,
    checker: &mut Checker<'_, '_, F>,
    file: &str,
) -> Result<u8, Stop> {
    let bytes = match read_bytes(rt, file) {
        Ok(bytes) => bytes,
        Err(stop) => return Ok(stop.status()),
    };
    let report = checker.check(file, unmarked(bytes.as_slice()))?;
    print(rt, report.text.as_str())?;
    Ok(report.status)
}
