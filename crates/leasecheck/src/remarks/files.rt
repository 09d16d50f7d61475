use crate::file_fault::FileFault;
use lease_texts::push_all_escaped;
use std::alloc::{AllocError, Global};

/// What is said of a file that can't be opened or read: its whole name, and why that is.
pub(crate) fn unread_line(
    alloc: Global,
    path: &str,
    fault: FileFault,
) -> Result<String, AllocError> {
    let mut text = String::new(alloc);
    text.push_str("FILE, \"")?;
    push_all_escaped(alloc, &mut text, path.as_bytes())?;
    text.push_str("\": ")?;
    text.push_str(fault.words())?;
    text.push_str("\n")?;
    Ok(text)
}
