//! Cleaning a file: its entries fed in order, keys dealt after each.
ghost use Rattle.std.specs.Prelude.{◌≡◌, length, string_bytes, IfOk, MatchResult};
ghost use Rattle.well.specs.View.{state};
ghost use Rattle.noise_file.specs.Contents.{key_length};
ghost use Rattle.clean.specs.Cleaning.{Cleaned, EntriesCleaned, EntryCleaned, FileCleaned, Ready, Wanting, tray_room};

use crate::deal::deal_keys;
use crate::fault::CleanFault;
use crate::text::{EntryLine, LastLine, RefusalLine};
use extractors::fault::Fault;
use extractors::judge::{GREATEST_SIZE, MOST_CODES, room};
use noise_file::file::NoiseFile;
use std::alloc::{AllocError, Global};
use std::fmt::Write;
use well::store::Well;

/// The mark of the program's well.
const MARK: u32 = 1;

/// A file that is being cleaned: its well, with the tray and the key buffer, and the text so far.
#[derive(Drop)]
struct Cleaning<'a> {
    heap: Global,
    file: &'a NoiseFile,
    well: Well,
    tray: Vec<u8>,
    key: Vec<u8>,
    text: String,
    ghost whole_tray: { length tray.items ≡ tray_room },
    ghost whole_key: { length key.items ≡ key_length file.now.bytes.items },
}

impl<'a> Cleaning<'a> {
    /// Makes ready to clean a file; no entry is cleaned.
    fn new(heap: Global, file: &'a NoiseFile) -> Result<Cleaning<'a>, AllocError>
        ensures { IfOk result (λ c. (c.file ≡ file.entry) × EntriesCleaned file.now.bytes.items 0 (string_bytes c.text) (state c.well)) }
    {
        Ok(Cleaning {
            heap,
            file,
            well: Well::new(heap, MARK)?,
            tray: vec![in heap; 0u8; room(GREATEST_SIZE, MOST_CODES)]?,
            key: vec![in heap; 0u8; file.key_length()]?,
            text: String::new(heap),
        })
    }

    /// Feeds an entry, adds its line to the text, and deals keys.
    fn clean_entry(&mut self, number: usize) -> Result<(), CleanFault>
        requires { Ready self.old.file.now.bytes.items number (state self.old.well) }
        ensures file { self.new.file ≡ self.old.file }
        ensures cleaned { MatchResult result (λ _. EntryCleaned self.old.file.now.bytes.items number (state self.old.well) (string_bytes self.old.text) (string_bytes self.new.text) (state self.new.well)) Wanting }
    {
        let (gain, lean) = self
            .file
            .feed(number, self.heap, &mut self.well, &mut self.tray)?;
        let entry = self.file.entry(number).unwrap();
        let body = entry.body();
        let line = EntryLine {
            number,
            kind: entry.kind_letter(),
            tower: body.tower.letter(),
            symbols: body.letters.len(),
            gain,
            lean,
        };
        write!(self.text, "{line}")?;
        deal_keys(&mut self.well, &mut self.key, &mut self.text)?;
        Ok(())
    }
}

/// Cleans the bytes of a noise file; the text is what the program prints.
pub(crate) fn clean(heap: Global, bytes: Vec<u8>) -> Result<String, CleanFault>
    ensures { MatchResult result (λ t. Cleaned bytes.items (string_bytes t)) Wanting }
{
    match NoiseFile::open(bytes) {
        Ok(file) => clean_file(heap, &file),
        Err(fault) => {
            let line = RefusalLine {
                number: fault.number(),
                place: fault.place(),
            };
            Ok(line.to_string(heap)?)
        }
    }
}

/// Cleans an opened file.
fn clean_file(heap: Global, file: &NoiseFile) -> Result<String, CleanFault>
    ensures { MatchResult result (λ t. FileCleaned file.now.bytes.items (string_bytes t)) Wanting }
{
    let mut cleaning = Cleaning::new(heap, file)?;
    for number in 1..=file.entries() {
        cleaning.clean_entry(number)?;
    }
    let Cleaning { well, mut text, .. } = cleaning;
    let line = LastLine {
        poured: well.poured(),
        loaded: well.loaded(),
        held: well.held(),
    };
    write!(text, "{line}")?;
    Ok(text)
}
