// The folder that a program's files stand in.
use std::fs::File;
use std::io;
use std::rt::Files;

/// A folder, to be opened before any file is and kept as long as one is used.
///
/// It is open three times. Where the standard input, output or error of a program is closed, the next thing that is opened
/// takes its number: a file there would be read as a script, or printed over. On a folder both fail.
#[derive(Drop)]
pub struct Folder {
    first: File,
    second: File,
    third: File,
}

impl Folder {
    pub fn open<R: Files<File = File>>(rt: &R, path: &str) -> io::Result<Folder> {
        Ok(Folder {
            first: File::open(rt, path)?,
            second: File::open(rt, path)?,
            third: File::open(rt, path)?,
        })
    }

    /// The names of the files that were made in it stand.
    pub fn sync(&self) -> io::Result<()> {
        self.third.sync_all()
    }
}
