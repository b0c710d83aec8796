// Files in memory by their names and texts.
use outside::{FileList, NamedFile};
use std::alloc::Global;
use std::test::Fail;

/// The files of these names and texts, and none where two have one name.
pub fn listed(alloc: Global, texts: &[(&str, &str)]) -> Result<Option<FileList>, Fail> {
    let mut files = Vec::new(alloc);
    for (name, text) in texts {
        let bytes = Vec::from_slice(alloc, text.as_bytes())?;
        files.push(NamedFile::new(name.to_string(alloc)?, bytes))?;
    }
    Ok(FileList::from_vec(files))
}

/// The same files, of names that differ.
pub fn files_of(alloc: Global, texts: &[(&str, &str)]) -> Result<FileList, Fail> {
    match listed(alloc, texts)? {
        Some(files) => Ok(files),
        None => Err(Fail::from("two files have one name")),
    }
}
