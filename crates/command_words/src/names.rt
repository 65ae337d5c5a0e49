//! The names of files and their extensions.

ghost use Rattle.std.specs.Prelude.{◌≡◌, ◌++◌, IfOk};
ghost use Rattle.command_words.specs.Names.{base_of, extension_of, file_name, has_extension, text_of};

use crate::options::Extension;
use std::alloc::Global;
use tet_ports::{Name, NoMemory};

impl Extension {
    /// The bytes of the extension, as `.node`.
    pub fn text(self) -> &'static [u8]
        ensures { result.now ≡ text_of self }
    {
        match self {
            Extension::Node => b".node",
            Extension::Poly => b".poly",
            Extension::Smesh => b".smesh",
            Extension::Off => b".off",
            Extension::Stl => b".stl",
        }
    }
}

fn has_extension(name: &[u8], extension: Extension) -> bool
    ensures { result ≡ has_extension name.now extension }
{
    name.ends_with(extension.text())
}

/// The known extension with which the name ends.
pub(crate) fn extension_of(name: &[u8]) -> Option<Extension>
    ensures { result ≡ extension_of name.now }
{
    if has_extension(name, Extension::Node) {
        Some(Extension::Node)
    } else if has_extension(name, Extension::Poly) {
        Some(Extension::Poly)
    } else if has_extension(name, Extension::Smesh) {
        Some(Extension::Smesh)
    } else if has_extension(name, Extension::Off) {
        Some(Extension::Off)
    } else if has_extension(name, Extension::Stl) {
        Some(Extension::Stl)
    } else {
        None
    }
}

/// The name without its known extension.
pub fn base_of(name: &[u8]) -> &[u8]
    ensures { result.now ≡ base_of name.now }
{
    match extension_of(name) {
        Some(extension) => &name[..name.len().saturating_sub(extension.text().len())],
        None => name,
    }
}

/// The base with these bytes behind it.
pub fn with_extension(alloc: Global, base: &Name, extension: &[u8]) -> Result<Name, NoMemory>
    ensures { IfOk result (λ name. name ≡ base.now ++ extension.now) }
{
    let mut name = Name::from_slice(alloc, base.as_slice())?;
    name.append(extension)?;
    Ok(name)
}

/// The name of the file with this base and extension.
pub fn file_name(alloc: Global, base: &Name, extension: Extension) -> Result<Name, NoMemory>
    ensures { IfOk result (λ name. name ≡ file_name base.now extension) }
{
    with_extension(alloc, base, extension.text())
}
