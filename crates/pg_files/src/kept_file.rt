// The bytes of the longest name of which a file is kept. A name takes no memory from an allocator.
const LONGEST: usize = 256;

/// A file that stays open for the next call, where that is of the same name.
#[derive(Drop)]
pub(crate) struct KeptFile<F> {
    name: [u8; LONGEST],
    length: usize,
    file: F,
}

/// Keeps a file of this name open, in place of the one that was kept. One of a long name is closed.
pub(crate) fn keep<F: Drop>(kept: &mut Option<KeptFile<F>>, name: &str, file: F) {
    let bytes = name.as_bytes();
    let length = bytes.len();
    if length > LONGEST {
        return;
    }
    let mut buffer = [0u8; LONGEST];
    buffer[..length].copy_from_slice(bytes);
    *kept = Some(KeptFile {
        name: buffer,
        length,
        file,
    });
}

/// Takes the file of this name, if it is the one that is kept. Another one is closed.
pub(crate) fn take<F: Drop>(kept: &mut Option<KeptFile<F>>, name: &str) -> Option<F> {
    let KeptFile {
        name: buffer,
        length,
        file,
    } = kept.take()?;
    if buffer.get(..length) == Some(name.as_bytes()) {
        Some(file)
    } else {
        None
    }
}
