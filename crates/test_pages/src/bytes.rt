/// Writes a piece at a place of some bytes, as far as it fits.
pub fn put(bytes: &mut [u8], at: usize, piece: &[u8]) {
    let at = at.min(bytes.len());
    for (place, byte) in bytes[at..].iter_mut().zip(piece) {
        *place = *byte;
    }
}

/// The first place at which bytes differ from these pieces at their places and zeros elsewhere, for
/// an assertion that there is none.
pub fn differs_at(bytes: &[u8], pieces: &[(usize, &[u8])]) -> Option<usize> {
    for (place, byte) in bytes.iter().enumerate() {
        if *byte != wanted_at(pieces, place) {
            return Some(place);
        }
    }
    None
}

// The byte that these pieces have at a place, or 0.
fn wanted_at(pieces: &[(usize, &[u8])], place: usize) -> u8 {
    for (first, piece) in pieces {
        if *first <= place && place - *first < piece.len() {
            return piece[place - *first];
        }
    }
    0
}
