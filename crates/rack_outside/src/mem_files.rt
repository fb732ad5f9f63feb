// Files in memory.
ghost use Rattle.std.specs.Prelude.{◌≡◌, ◌≢◌, ◌≤◌, ◌++◌, [], ◌∷◌, ℕ, List, Some, OnOk, OnErr, IfOk, position};
ghost use Rattle.std.specs.Str.{bytes_eq};
ghost use Rattle.rack_outside.specs.Cabinet.{texts_under};
ghost use Rattle.rack_outside.specs.OneText.{AnswersText};
ghost use Rattle.rack_outside.specs.Files.{Answers, AnswersFrom, IsTurning, Notes, OnFailedFile};

use crate::{FileRead, Files};
use http_server::Log;
use rack_types::{Bytes, NoMemory};
use std::alloc::Global;
use std::marker::Model;

/// Files in memory: names with texts. They tell what they hold and what was read, and never fail.
///
/// The texts of one name are answered in turn, and the last one stays, so a name that is held stays
/// held.
#[derive(Drop)]
pub struct MemFiles {
    alloc: Global,
    // each text with its name, in the order in which they were added
    texts: Vec<(Bytes, Bytes)>,
    reads: Log<Bytes, FileRead>,
}

impl Model for MemFiles {
    ghost use Rattle.rack_outside.specs.Cabinet.{Cabinet};

    ghost Value = { Cabinet };

    ghost view = { λ f. record { texts = f.texts.items; reads = f.reads.items } };
}

impl MemFiles {
    /// No files. It takes no memory.
    pub fn new(alloc: Global) -> MemFiles
        ensures empty { result ≡ record { texts = []; reads = [] } }
        ensures holds { ⟦<MemFiles as Files>⟧.holds result ≡ Some (λ _. []) }
        ensures texts { ⟦<MemFiles as Files>⟧.texts result ≡ Some [] }
        ensures faults { ⟦<MemFiles as Files>⟧.faults result ≡ 0 }
    {
        MemFiles {
            alloc,
            texts: Vec::new(alloc),
            reads: Log::new(),
        }
    }

    /// Puts a text behind the texts of this name. It takes memory, and a refused call changes nothing.
    pub fn add(&mut self, name: &str, text: Bytes) -> Result<(), NoMemory>
        ensures added { OnOk result (self.new ≡ record {
          texts = self.old.texts ++ (name.now, text) ∷ [];
          reads = self.old.reads;
        }) }
        ensures behind { OnOk result
            (texts_under self.new.texts name.now ≡ texts_under self.old.texts name.now ++ text ∷ []) }
        ensures others { OnOk result ((other : List ℕ) → other ≢ name.now
            → texts_under self.new.texts other ≡ texts_under self.old.texts other) }
        ensures refused { OnErr result (self.new ≡ self.old) }
    {
        let name = Bytes::new(name.as_bytes().to_vec(self.alloc)?);
        self.texts.push((name, text))?;
        Ok(())
    }
}

impl Files for MemFiles {
    ghost holds = { λ f. Some (texts_under f.texts) };

    ghost texts = { λ f. Some f.reads };

    ghost faults = { λ _. 0 };

    /// Answers the next text of this name, `Absent` exactly where there is none, and `Long` exactly
    /// where it has more than `limit` bytes. It takes memory for the text, and a refused call
    /// changes nothing.
    fn read(&mut self, name: &str, limit: usize) -> Result<FileRead, NoMemory>
        ensures answers { Answers result name.now limit
            (Some (texts_under self.old.texts)) (Some (texts_under self.new.texts)) }
        ensures notes { Notes result name.now (Some self.old.reads) (Some self.new.reads) }
        ensures failed { OnFailedFile result ⊥ }
        ensures refused { OnErr result (self.new ≡ self.old) }
    {
        let key = Bytes::new(name.as_bytes().to_vec(self.alloc)?);
        let answer = read_text(self.alloc, &mut self.texts, key.get(), limit)?;
        self.reads = self.reads.and(&key, &answer);
        Ok(answer)
    }
}

// Answers the first text of this name, and takes it away where another stands behind it.
fn read_text(
    alloc: Global,
    texts: &mut Vec<(Bytes, Bytes)>,
    name: &[u8],
    limit: usize,
) -> Result<FileRead, NoMemory>
    ensures answers { IfOk result
        (λ answer. AnswersFrom answer limit (texts_under texts.old.items name.now)) }
    ensures turned { IfOk result (λ answer. IsTurning answer name.now
        (texts_under texts.old.items) (texts_under texts.new.items)) }
    ensures refused { OnErr result (texts.new.items ≡ texts.old.items) }
    ensures failed { OnFailedFile result ⊥ }
{
    let Some(at) = first_of(texts, name) else {
        return Ok(FileRead::Absent);
    };
    let answer = answer_of(alloc, texts[at].1.get(), limit)?;
    // the last text of a name stays
    if first_of(&texts[at + 1..], name).is_some() {
        texts.remove(at);
    }
    Ok(answer)
}

// The text itself, where it has at most `limit` bytes.
fn answer_of(alloc: Global, text: &[u8], limit: usize) -> Result<FileRead, NoMemory>
    ensures { IfOk result (λ answer. AnswersText answer limit text.now) }
{
    if text.len() > limit {
        Ok(FileRead::Long)
    } else {
        Ok(FileRead::Text(Bytes::new(text.to_vec(alloc)?)))
    }
}

// The place of the first text of this name.
fn first_of(texts: &[(Bytes, Bytes)], name: &[u8]) -> Option<usize>
    ensures { result ≡ position (λ held. bytes_eq held.0 name.now) texts.now }
{
    texts.iter().position(|(held, _)| held.get() == name)
}
