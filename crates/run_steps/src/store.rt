//! The files of a mesh, stored one after the other.

ghost use Rattle.std.specs.Prelude.{◌≡◌, ◌≤◌, ◌++◌, ◌∷◌, [], OnOk, IfOk, IfErr};
ghost use Rattle.tet_ports.specs.Counts.{Rose};
ghost use Rattle.run_steps.specs.Stores.{given, with_files, AreLeft, IfFailed};

use std::alloc::Global;
use std::marker::Model;
use tet_ports::{Bytes, Folder, Name, NoMemory, StoreFault};

/// A text, and the name of its file.
#[derive(Debug, Drop)]
pub struct NamedText {
    pub name: Name,
    pub content: Bytes,
}

/// Texts with the names of their files, in order, which contracts see as their list.
#[derive(Debug, Drop)]
pub struct NamedTexts {
    kept: Vec<NamedText>,
}

impl Model for NamedTexts {
    ghost use Rattle.std.specs.Prelude.{List};
    ghost use Rattle.run_steps.specs.declared.store.NamedText.{NamedText};

    ghost Value = { List NamedText };

    ghost view = { λ s. s.kept.items };
}

/// The texts of a mesh's files, each where it is asked for, in the order in which they are stored.
#[derive(Debug, Drop)]
pub struct Texts {
    pub node: Option<NamedText>,
    pub ele: Option<NamedText>,
    pub face: Option<NamedText>,
    pub edge: Option<NamedText>,
    pub neigh: Option<NamedText>,
    /// The files of the whole mesh, one in each format that is asked for.
    pub whole: NamedTexts,
}

/// Why not all texts are stored.
#[derive(Debug, Drop)]
pub enum StoreStop {
    /// The folder failed at this text.
    Failed(NamedText),
    NoMemory,
}

impl NamedTexts {
    /// No text. It takes no memory yet.
    pub fn new(alloc: Global) -> Self
        ensures { result ≡ [] }
    {
        NamedTexts {
            kept: Vec::new(alloc),
        }
    }

    /// Appends a text, if it is present.
    pub(crate) fn append(&mut self, text: Option<NamedText>) -> Result<(), NoMemory>
        ensures { OnOk result (self.new ≡ self.old ++ given (text ∷ [])) }
    {
        if let Some(text) = text {
            self.kept.push(text)?;
        }
        Ok(())
    }

    /// Appends all of these texts.
    fn append_all(&mut self, texts: NamedTexts) -> Result<(), NoMemory>
        ensures { OnOk result (self.new ≡ self.old ++ texts) }
    {
        let NamedTexts { mut kept } = texts;
        self.kept.append(&mut kept)?;
        Ok(())
    }
}

impl Texts {
    ghost use Rattle.run_steps.specs.Stores.{in_order};

    /// The texts that are present, in the order in which they are stored.
    pub fn in_order(self, alloc: Global) -> Result<NamedTexts, NoMemory>
        ensures { IfOk result (λ list. list ≡ in_order self) }
    {
        let mut list = NamedTexts::new(alloc);
        append_three(self.node, self.ele, self.face, &mut list)?;
        list.append(self.edge)?;
        list.append(self.neigh)?;
        list.append_all(self.whole)?;
        Ok(list)
    }
}

/// Appends three texts, those that are present.
fn append_three(
    one: Option<NamedText>,
    two: Option<NamedText>,
    three: Option<NamedText>,
    list: &mut NamedTexts,
) -> Result<(), NoMemory>
    ensures { OnOk result (list.new ≡ list.old ++ given (one ∷ two ∷ three ∷ [])) }
{
    list.append(one)?;
    list.append(two)?;
    list.append(three)?;
    Ok(())
}

/// Stores the texts in their order, until a store is refused.
pub fn store_all<F: Folder>(texts: NamedTexts, folder: &mut F) -> Result<(), StoreStop>
    ensures stored { OnOk result
        ((F.state folder.new).files ≡ with_files (F.state folder.old).files texts) }
    ensures stopped { IfErr result
        (AreLeft (F.state folder.old).files texts (F.state folder.new).files) }
    ensures failed { IfErr result (λ stop. IfFailed stop
        (Rose (F.state folder.old).write_faults (F.state folder.new).write_faults)) }
    ensures unread { (F.state folder.new).read_faults ≡ (F.state folder.old).read_faults }
    ensures misses { (F.state folder.new).misses ≡ (F.state folder.old).misses }
{
    for text in texts.kept {
        match folder.store(&text.name, &text.content) {
            Ok(()) => {}
            Err(StoreFault::Failed) => return Err(StoreStop::Failed(text)),
            Err(StoreFault::NoMemory) => return Err(StoreStop::NoMemory),
        }
    }
    Ok(())
}
