//! Judging a file: its head, its contents, its end and its letters, in this order.
ghost use Rattle.std.specs.Prelude.{◌<◌, length, OnOk};
ghost use Rattle.noise_file.specs.Contents.{entries};
ghost use Rattle.noise_file.specs.Rules.{head_due, line_due, contents_due, end_due, body_due, letters_due, due};
ghost use Rattle.noise_file.specs.Opened.{Accepted};
ghost use Rattle.extractors.specs.Calls.{Judged};

use crate::bodies::Bodies;
use crate::contents::{Contents, line_at};
use crate::fault::FileFault;
use crate::kind::Symbols;
use towers::tower::Tower;

/// The most entries of a file.
const MOST_ENTRIES: u8 = 15;
// The file's limits are bytes of the file, and not the well's or the extractors' numbers of other types.
/// The greatest key length that a file asks for.
const MOST_KEY_LENGTH: u8 = 32;
/// The most letters of an entry.
const MOST_LETTERS: u16 = 4096;

/// Judges the head: the number of entries and the key length.
fn judge_head(bytes: &[u8]) -> Result<(), FileFault>
    ensures { Judged (head_due bytes.now) result }
{
    let [entries, key_length, ..] = bytes else {
        return Err(FileFault::Cut(bytes.len()));
    };
    if !(1..=MOST_ENTRIES).contains(entries) {
        return Err(FileFault::Entries);
    }
    if !(1..=MOST_KEY_LENGTH).contains(key_length) {
        return Err(FileFault::KeyLength);
    }
    Ok(())
}

impl Contents<'_> {
    /// Judges the four bytes of entry `i`, from 0.
    fn judge_line(&self, i: usize) -> Result<(), FileFault>
        requires { i < entries self.now.bytes.now }
        ensures { Judged (line_due self.now.bytes.now i) result }
    {
        let at = line_at(i);
        let line = self.line(i);
        Symbols::of(line.kind).ok_or(FileFault::Kind(at))?;
        Tower::of(line.tower).ok_or(FileFault::Tower(at + 1))?;
        if line.length > MOST_LETTERS {
            return Err(FileFault::Length(at + 2));
        }
        Ok(())
    }

    /// Judges the four bytes of each entry, in order.
    fn judge_lines(&self) -> Result<(), FileFault>
        ensures { Judged (contents_due self.now.bytes.now) result }
    {
        // A `for` with `?` is plainer than `try_for_each` with a closure.
        for i in 0..self.entries() {
            self.judge_line(i)?;
        }
        Ok(())
    }

    /// Judges whether the bodies end where the file ends.
    fn judge_end(&self) -> Result<(), FileFault>
        ensures { Judged (end_due self.now.bytes.now) result }
    {
        let end = self.begin_of(self.entries());
        if end != self.bytes.len() {
            return Err(FileFault::End(end.min(self.bytes.len())));
        }
        Ok(())
    }
}

impl Bodies<'_> {
    /// Judges the letters of entry `i`, from 0.
    fn judge_body(&self, i: usize) -> Result<(), FileFault>
        requires { i < entries self.now.contents.bytes.now }
        ensures { Judged (body_due self.now.contents.bytes.now i) result }
    {
        let entry = self.entry(i);
        match entry.first_stray() {
            Some(k) => Err(FileFault::Letter(entry.body().at + k)),
            None => Ok(()),
        }
    }

    /// Judges the letters of each entry, in order.
    fn judge_letters(&self) -> Result<(), FileFault>
        ensures { Judged (letters_due self.now.contents.bytes.now) result }
    {
        // A `for` with `?` is plainer than `try_for_each` with a closure.
        for i in 0..self.contents.entries() {
            self.judge_body(i)?;
        }
        Ok(())
    }
}

/// Judges a whole file: the refusal that is due, or that it is acceptable.
pub(crate) fn judge(bytes: &[u8]) -> Result<(), FileFault>
    ensures due { Judged (due bytes.now) result }
    ensures accepted { OnOk result (Accepted bytes.now) }
{
    judge_head(bytes)?;
    let contents = Contents::of(bytes)?;
    contents.judge_lines()?;
    contents.judge_end()?;
    Bodies { contents }.judge_letters()
}
