//! An image as it is read: as its file has it, or with words.
use crate::file::FileFault;
use crate::image_words::{LARGEST_IMAGE, ProgramWords, put_words};
use std::alloc::Global;
use std::fs::File;
use std::io::{self, Cursor, Read};

/// What an ELF file begins with: it is no image, and gets no words.
const ELF: &[u8] = b"\x7fELF";

/// Where an image is read from.
#[derive(Drop)]
pub enum ImageReader {
    /// Its file.
    File(File),
    /// Its bytes with words.
    Bytes(Cursor<Vec<u8>>),
}

impl Read for ImageReader {
    fn read(&mut self, buf: &mut [u8]) -> io::Result<usize> {
        match self {
            ImageReader::File(file) => file.read(buf),
            ImageReader::Bytes(bytes) => bytes.read(buf),
        }
    }
}

/// Reads the image of a file and puts words into it. What is no image of any guest, an ELF file or too long, stays as it is: the job that
/// asked for it refuses it by name.
pub(crate) fn with_words(
    alloc: Global,
    file: File,
    words: &ProgramWords<'_>,
) -> Result<ImageReader, FileFault> {
    let mut image = Vec::new(alloc);
    file.take(LARGEST_IMAGE as u64 + 1).read_to_end(&mut image)?;
    if image.len() <= LARGEST_IMAGE && !image.starts_with(ELF) {
        put_words(&mut image, words)?;
    }
    Ok(ImageReader::Bytes(Cursor::new(image)))
}
