// Files in memory, by their names.
ghost use Rattle.std.specs.Prelude.{◌≡◌, if◌then◌else◌, option_map, Some, None, bytes_eq, string_bytes};
ghost use Rattle.outside.specs.StoreRules.{bytes_of};
ghost use Rattle.outside.specs.MemoryStores.{has_name, names_differ};

use std::marker::Model;

/// A file that a store in memory has: its name and its bytes. Contracts see both as bytes.
#[derive(Drop)]
pub struct NamedFile {
    name: String,
    bytes: Vec<u8>,
}

impl Model for NamedFile {
    ghost use Rattle.std.specs.Prelude.{string_bytes};
    ghost use Rattle.outside.specs.StoreRules.{NamedBytes};

    ghost Value = { NamedBytes };

    ghost view = { λ f. record { name = string_bytes f.name; bytes = f.bytes.items } };
}

impl NamedFile {
    /// A file of this name with these bytes.
    pub fn new(name: String, bytes: Vec<u8>) -> NamedFile
        ensures { result ≡ record { name = string_bytes name; bytes = bytes.items } }
    {
        NamedFile { name, bytes }
    }

    fn is_named(&self, name: &str) -> bool
        ensures { result ≡ bytes_eq self.now.name name.now }
    {
        self.name.as_str() == name
    }

    fn bytes(&self) -> &[u8]
        ensures { result.now ≡ self.now.bytes }
    {
        self.bytes.as_slice()
    }
}

/// Whether a file has this name.
fn has_name(files: &[NamedFile], name: &str) -> bool
    ensures { result ≡ has_name files.now name.now }
{
    files.iter().any(|file| file.is_named(name))
}

/// Whether no name comes twice.
#[tactic(auto, using(crate::proofs::FileNames::more_names_differ), unfolding(crate::specs::MemoryStores::names_differ))]
fn names_differ(files: &[NamedFile]) -> bool
    ensures { result ≡ names_differ files.now }
{
    match files.split_first() {
        None => true,
        Some((first, rest)) => !has_name(rest, first.name.as_str()) && names_differ(rest),
    }
}

/// Files with different names. Contracts see them as a list.
#[derive(Drop)]
pub struct FileList {
    files: Vec<NamedFile>,
}

impl Model for FileList {
    ghost use Rattle.std.specs.Prelude.{◌≡◌, List, true};
    ghost use Rattle.outside.specs.StoreRules.{NamedBytes};
    ghost use Rattle.outside.specs.MemoryStores.{names_differ};

    ghost Value = { List NamedBytes };

    ghost view = { λ l. l.files.items };

    ghost invariant = { λ l. names_differ l.files.items ≡ true };
}

impl FileList {
    /// The files of a vector, and `None` where two have one name.
    pub fn from_vec(files: Vec<NamedFile>) -> Option<FileList>
        ensures { result ≡ (if names_differ files.items then Some files.items else None) }
    {
        if names_differ(files.as_slice()) {
            Some(FileList { files })
        } else {
            None
        }
    }

    /// The bytes of the file of this name.
    pub fn bytes_of(&self, name: &str) -> Option<&[u8]>
        ensures { option_map (λ bytes. bytes.now) result ≡ bytes_of self.now name.now }
    {
        let file = self.files.iter().find(|file| file.is_named(name))?;
        Some(file.bytes())
    }
}
