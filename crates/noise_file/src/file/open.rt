//! Opening a noise file, and what an opened file answers.
ghost use Rattle.std.specs.Prelude.{◌≡◌, ◌≤◌, Some, Ok, Err};
ghost use Rattle.noise_file.specs.Contents.{entries, key_length};
ghost use Rattle.noise_file.specs.Rules.{due};
ghost use Rattle.noise_file.specs.Opened.{Accepted};
ghost use Rattle.noise_file.specs.Entries.{Answered};

use super::NoiseFile;
use crate::bodies::Bodies;
use crate::contents::Contents;
use crate::entry::Entry;
use crate::fault::FileFault;
use crate::judge::judge;

impl NoiseFile {
    /// Opens a file, or answers the refusal that is due.
    pub fn open(bytes: Vec<u8>) -> Result<NoiseFile, FileFault>
        ensures { elim result [ Ok f ↦ (f.bytes.items ≡ bytes.items) × Accepted bytes.items | Err e ↦ due bytes.items ≡ Some e ] }
    {
        judge(bytes.as_slice())?;
        Ok(NoiseFile { bytes })
    }

    /// The bodies of the file, which was judged when it was opened.
    fn bodies(&self) -> Bodies<'_>
        ensures { result.contents.bytes.now ≡ self.now.bytes.items }
    {
        let contents = Contents {
            bytes: self.bytes.as_slice(),
        };
        Bodies { contents }
    }

    /// The number of entries, from 1 to 15.
    pub fn entries(&self) -> usize
        ensures value { result ≡ entries self.now.bytes.items }
        ensures low_bound { 1 ≤ result }
        ensures high_bound { result ≤ 15 }
    {
        self.bodies().contents.entries()
    }

    /// The length of a key in bytes, from 1 to 32.
    pub fn key_length(&self) -> usize
        ensures value { result ≡ key_length self.now.bytes.items }
        ensures low_bound { 1 ≤ result }
        ensures high_bound { result ≤ 32 }
    {
        self.bodies().contents.key_length()
    }

    /// The entry of a number, which counts from 1.
    pub fn entry(&self, number: usize) -> Result<Entry<'_>, FileFault>
        ensures { Answered self.now.bytes.items number result }
    {
        if !(1..=self.entries()).contains(&number) {
            return Err(FileFault::Number(number));
        }
        Ok(self.bodies().entry(number - 1))
    }
}
